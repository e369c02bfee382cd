//! Each attribute type and each class of the tables by its name.
ghost use Rattle.std.specs.Prelude.{◌≡◌, [], ◌∷◌, ◌++◌, map};
ghost use Rattle.schema_tables.specs.Attributes.{name_of};
ghost use Rattle.schema_tables.specs.classes.Classes.{class_name_of, words};

use crate::kinds::{AttrId, ClassId};

impl AttrId {
    pub const OBJECT_CLASS: AttrId = AttrId(0);

    pub const CN: AttrId = AttrId(1);

    pub const SN: AttrId = AttrId(2);

    pub const SERIAL_NUMBER: AttrId = AttrId(3);

    pub const C: AttrId = AttrId(4);

    pub const L: AttrId = AttrId(5);

    pub const ST: AttrId = AttrId(6);

    pub const STREET: AttrId = AttrId(7);

    pub const O: AttrId = AttrId(8);

    pub const OU: AttrId = AttrId(9);

    pub const TITLE: AttrId = AttrId(10);

    pub const DESCRIPTION: AttrId = AttrId(11);

    pub const POSTAL_CODE: AttrId = AttrId(12);

    pub const TELEPHONE_NUMBER: AttrId = AttrId(13);

    pub const MEMBER: AttrId = AttrId(14);

    pub const OWNER: AttrId = AttrId(15);

    pub const ROLE_OCCUPANT: AttrId = AttrId(16);

    pub const SEE_ALSO: AttrId = AttrId(17);

    pub const USER_PASSWORD: AttrId = AttrId(18);

    pub const GIVEN_NAME: AttrId = AttrId(19);

    pub const INITIALS: AttrId = AttrId(20);

    pub const UNIQUE_MEMBER: AttrId = AttrId(21);

    pub const UID: AttrId = AttrId(22);

    pub const MAIL: AttrId = AttrId(23);

    pub const MANAGER: AttrId = AttrId(24);

    pub const DC: AttrId = AttrId(25);

    pub const MOBILE: AttrId = AttrId(26);

    pub const EMPLOYEE_NUMBER: AttrId = AttrId(27);

    pub const DISPLAY_NAME: AttrId = AttrId(28);

    pub const ADMINISTRATIVE_ROLE: AttrId = AttrId(29);

    pub const SUBTREE_SPECIFICATION: AttrId = AttrId(30);

    pub const ACCESS_CONTROL_SCHEME: AttrId = AttrId(31);

    pub const PRESCRIPTIVE_ACI: AttrId = AttrId(32);

    pub const ENTRY_ACI: AttrId = AttrId(33);

    pub const SUBENTRY_ACI: AttrId = AttrId(34);
}

impl ClassId {
    pub const TOP: ClassId = ClassId(0);

    pub const COUNTRY: ClassId = ClassId(1);

    pub const LOCALITY: ClassId = ClassId(2);

    pub const ORGANIZATION: ClassId = ClassId(3);

    pub const ORGANIZATIONAL_UNIT: ClassId = ClassId(4);

    pub const PERSON: ClassId = ClassId(5);

    pub const ORGANIZATIONAL_PERSON: ClassId = ClassId(6);

    pub const ORGANIZATIONAL_ROLE: ClassId = ClassId(7);

    pub const GROUP_OF_NAMES: ClassId = ClassId(8);

    pub const DEVICE: ClassId = ClassId(9);

    pub const GROUP_OF_UNIQUE_NAMES: ClassId = ClassId(10);

    pub const DOMAIN: ClassId = ClassId(11);

    pub const ACCOUNT: ClassId = ClassId(12);

    pub const INET_ORG_PERSON: ClassId = ClassId(13);

    pub const DC_OBJECT: ClassId = ClassId(14);

    pub const UID_OBJECT: ClassId = ClassId(15);

    pub const SIMPLE_SECURITY_OBJECT: ClassId = ClassId(16);

    pub const SUBENTRY: ClassId = ClassId(17);

    pub const ACCESS_CONTROL_SUBENTRY: ClassId = ClassId(18);
}

/// Each constant is the number of the row that it is called after, in the order of the tables.
#[tactic(auto, unfolding(crate::specs::Attributes::attributes, crate::specs::classes::Classes::classes))]
pub fn constants_are_rows()
    ensures attributes { map (λ attribute. name_of attribute.0)
        (AttrId.OBJECT_CLASS ∷ AttrId.CN ∷ AttrId.SN ∷ AttrId.SERIAL_NUMBER ∷ AttrId.C ∷
        AttrId.L ∷ AttrId.ST ∷ AttrId.STREET ∷ AttrId.O ∷ AttrId.OU ∷ AttrId.TITLE ∷
        AttrId.DESCRIPTION ∷ AttrId.POSTAL_CODE ∷ AttrId.TELEPHONE_NUMBER ∷ AttrId.MEMBER ∷
        AttrId.OWNER ∷ AttrId.ROLE_OCCUPANT ∷ AttrId.SEE_ALSO ∷ AttrId.USER_PASSWORD ∷
        AttrId.GIVEN_NAME ∷ AttrId.INITIALS ∷ AttrId.UNIQUE_MEMBER ∷ AttrId.UID ∷ AttrId.MAIL ∷
        AttrId.MANAGER ∷ AttrId.DC ∷ AttrId.MOBILE ∷ AttrId.EMPLOYEE_NUMBER ∷
        AttrId.DISPLAY_NAME ∷ AttrId.ADMINISTRATIVE_ROLE ∷ AttrId.SUBTREE_SPECIFICATION ∷
        AttrId.ACCESS_CONTROL_SCHEME ∷ AttrId.PRESCRIPTIVE_ACI ∷ AttrId.ENTRY_ACI ∷
        AttrId.SUBENTRY_ACI ∷ [])
        ≡ words "objectClass cn sn serialNumber c l st street o ou title description"
        ++ words "postalCode telephoneNumber member owner roleOccupant seeAlso"
        ++ words "userPassword givenName initials uniqueMember uid mail manager dc mobile"
        ++ words "employeeNumber displayName administrativeRole subtreeSpecification"
        ++ words "accessControlScheme prescriptiveACI entryACI subentryACI" }
    ensures classes { map (λ class. class_name_of class.0)
        (ClassId.TOP ∷ ClassId.COUNTRY ∷ ClassId.LOCALITY ∷ ClassId.ORGANIZATION ∷
        ClassId.ORGANIZATIONAL_UNIT ∷ ClassId.PERSON ∷ ClassId.ORGANIZATIONAL_PERSON ∷
        ClassId.ORGANIZATIONAL_ROLE ∷ ClassId.GROUP_OF_NAMES ∷ ClassId.DEVICE ∷
        ClassId.GROUP_OF_UNIQUE_NAMES ∷ ClassId.DOMAIN ∷ ClassId.ACCOUNT ∷
        ClassId.INET_ORG_PERSON ∷ ClassId.DC_OBJECT ∷ ClassId.UID_OBJECT ∷
        ClassId.SIMPLE_SECURITY_OBJECT ∷ ClassId.SUBENTRY ∷ ClassId.ACCESS_CONTROL_SUBENTRY ∷ [])
        ≡ words "top country locality organization organizationalUnit person"
        ++ words "organizationalPerson organizationalRole groupOfNames device"
        ++ words "groupOfUniqueNames domain account inetOrgPerson dcObject uidObject"
        ++ words "simpleSecurityObject subentry accessControlSubentry" }
{}
