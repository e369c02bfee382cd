//! Data files.

/// Two entries.
pub const TWO_ENTRIES: &str = "\
    dn: dc=u\n\
    objectClass: domain\n\
    dc: u\n\
    \n\
    dn: ou=b,dc=u\n\
    objectClass: organizationalUnit\n\
    ou:: YQ==\n";

/// A suffix, a subentry by which everyone may see all, and three entries below.
pub const OPEN: &str = "\
    dn: dc=w\n\
    objectClass: domain\n\
    dc: w\n\
    administrativeRole: autonomousArea\n\
    \n\
    dn: cn=o,dc=w\n\
    objectClass: subentry\n\
    objectClass: accessControlSubentry\n\
    cn: o\n\
    subtreeSpecification: { }\n\
    prescriptiveACI: { identificationTag \"o\", precedence 0, authenticationLevel none, itemOrUserFirst \
    userFirst: { userClasses { allUsers }, userPermissions { { protectedItems { entry, \
    allUserAttributeTypesAndValues }, grantsAndDenials { grantRead, grantFilterMatch, grantBrowse, \
    grantReturnDN } } } } }\n\
    \n\
    dn: cn=d,dc=w\n\
    objectClass: device\n\
    cn: d\n\
    \n\
    dn: cn=e,dc=w\n\
    objectClass: device\n\
    cn: e\n\
    \n\
    dn: cn=f,dc=w\n\
    objectClass: device\n\
    cn: f\n";

/// A suffix, a subentry by which everyone may see all and remove it, and two entries below.
pub const SITE: &str = "\
    dn: dc=w\n\
    objectClass: domain\n\
    dc: w\n\
    administrativeRole: autonomousArea\n\
    \n\
    dn: cn=o,dc=w\n\
    objectClass: subentry\n\
    objectClass: accessControlSubentry\n\
    cn: o\n\
    subtreeSpecification: { }\n\
    prescriptiveACI: { identificationTag \"o\", precedence 0, authenticationLevel none, itemOrUserFirst \
    userFirst: { userClasses { allUsers }, userPermissions { { protectedItems { entry, \
    allUserAttributeTypesAndValues }, grantsAndDenials { grantRead, grantFilterMatch, grantBrowse, \
    grantRemove, grantReturnDN } } } } }\n\
    \n\
    dn: cn=d,dc=w\n\
    objectClass: device\n\
    cn: d\n\
    \n\
    dn: cn=e,dc=w\n\
    objectClass: device\n\
    cn: e\n";

/// The head of a file of changes of the site, which has the SHA-256 of its text (FIPS 180-4).
pub const SITE_HEAD: &str =
    "version: 1\n# of sha256 a40cac72ed28ce32f47f3e5a3228c94d72a902daa7e6de531ef81b12ab8b2d1a\n\n";
