//! The data file of a sample.

ghost use Rattle.std.specs.Prelude.{◌≡◌, ◌<◌, ◌++◌, ◌==◌, IfOk, OnOk, string_bytes};
ghost use Rattle.sample_input.specs.SampleFile.{area_record, subentry_record, unit_records};
ghost use Rattle.sample_input.specs.SampleFile.{unit_of, person_name, person_record, sample_file};

use std::alloc::{AllocError, Global};

fn area_records() -> &'static str
    ensures { result.now ≡ area_record ++ subentry_record }
{
    "version: 1\n\n\
    dn: dc=sample\nobjectClass: domain\ndc: sample\nadministrativeRole: accessControlSpecificArea\n\n\
    dn: cn=acl,dc=sample\nobjectClass: subentry\nobjectClass: accessControlSubentry\ncn: acl\n\
    subtreeSpecification: { base \"ou=open\" }\n\
    prescriptiveACI: { identificationTag \"a\", precedence 0, authenticationLevel none, \
    itemOrUserFirst userFirst: { userClasses { allUsers }, userPermissions { { \
    protectedItems { entry, allUserAttributeTypesAndValues }, grantsAndDenials { \
    grantBrowse, grantReturnDN, grantRead, grantFilterMatch, grantDiscloseOnError } } } } }\n"
}

fn unit_records() -> &'static str
    ensures { result.now ≡ unit_records }
{
    "\ndn: ou=open,dc=sample\nobjectClass: organizationalUnit\nou: open\n\n\
    dn: ou=shut,dc=sample\nobjectClass: organizationalUnit\nou: shut\n"
}

// The unit of a person.
fn unit_of(number: u32) -> &'static str
    ensures { result.now ≡ unit_of number }
{
    if number % 2 == 1 { "open" } else { "shut" }
}

/// The name of a person.
#[tactic(auto, unfolding(crate::specs::SampleFile::person_name))]
pub(crate) fn person_name(alloc: Global, number: u32) -> Result<String, AllocError>
    ensures { IfOk result (λ name. string_bytes name ≡ person_name number) }
{
    let unit = unit_of(number);
    format!(in alloc; "uid=u{number},ou={unit},dc=sample")
}

// The record of a person.
#[tactic(auto, unfolding(crate::specs::SampleFile::person_record))]
fn person_record(alloc: Global, number: u32) -> Result<String, AllocError>
    ensures { IfOk result (λ text. string_bytes text ≡ person_record number) }
{
    let name = person_name(alloc, number)?;
    format!(in alloc; "\ndn: {name}\nobjectClass: account\nuid: u{number}\n")
}

// Appends the record of a person.
fn push_person(alloc: Global, text: &mut String, number: u32) -> Result<(), AllocError>
    ensures ok { OnOk result (string_bytes text.new ≡ string_bytes text.old ++ person_record number) }
{
    let record = person_record(alloc, number)?;
    text.push_str(record.as_str())
}

// The file without persons.
#[tactic(auto, unfolding(crate::specs::SampleFile::sample_file))]
fn without_persons(alloc: Global) -> Result<String, AllocError>
    ensures { IfOk result (λ text. string_bytes text ≡ sample_file 0) }
{
    let mut text = String::from_str(alloc, area_records())?;
    text.push_str(unit_records())?;
    Ok(text)
}

/// The data file of a sample of so many persons. The error comes for want of memory alone.
#[tactic(auto, unfolding(crate::specs::SampleFile::sample_file))]
pub fn sample_file(alloc: Global, count: u32) -> Result<String, AllocError>
    ensures exact { IfOk result (λ text. string_bytes text ≡ sample_file count) }
{
    let mut text = without_persons(alloc)?;
    for done in 0..count {
        push_person(alloc, &mut text, done + 1)?;
    }
    Ok(text)
}
