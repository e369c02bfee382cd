//! An add and a delete (RFC 4511 4.7 and 4.8) where memory may be refused: what is answered, and what the directory then has.

use aci_index::IndexedDir;
use aci_index::directory::Dir;
use data_file::load;
use session_hub::{Bounds, Event, Hub};
use std::alloc::{AllocError, Global};
use std::test::Fail;

// A suffix, a subentry by which everyone may do all with entries below, and one such entry.
const SITE: &str = "\
    dn: dc=w\n\
    objectClass: domain\n\
    dc: w\n\
    administrativeRole: autonomousArea\n\
    \n\
    dn: cn=o,dc=w\n\
    objectClass: subentry\n\
    objectClass: accessControlSubentry\n\
    cn: o\n\
    subtreeSpecification: { }\n\
    prescriptiveACI: { identificationTag \"o\", precedence 0, authenticationLevel none, itemOrUserFirst \
    userFirst: { userClasses { allUsers }, userPermissions { { protectedItems { entry, \
    allUserAttributeTypesAndValues }, grantsAndDenials { grantAdd, grantDiscloseOnError, grantRead, \
    grantRemove, grantBrowse, grantReturnDN } } } } }\n\
    \n\
    dn: cn=d,dc=w\n\
    objectClass: device\n\
    cn: d\n";

/// A directory of the site.
pub fn site(alloc: Global) -> Result<IndexedDir, Fail> {
    let tree = load(alloc, SITE.as_bytes())?;
    let dir = IndexedDir::new(alloc, tree)?;
    Ok(dir)
}

// A hub with the connections 1 and 2.
fn opened(alloc: Global, dir: &mut IndexedDir) -> Result<Hub, Fail> {
    let mut hub = Hub::new(alloc, Bounds::NONE)?;
    hear(&mut hub, dir, Event::Opened(1))?;
    hear(&mut hub, dir, Event::Opened(2))?;
    Ok(hub)
}

// Hears an event. It promises nothing, so that the proof of a test goes by what the test asks of the hub.
fn hear(hub: &mut Hub, dir: &mut IndexedDir, event: Event<'_>) -> Result<(), AllocError> {
    hub.hear(dir, event)
}

fn entries(dir: &IndexedDir) -> usize {
    dir.tree().len()
}

// An add with messageID 2 and a delete with messageID 3, of one entry, and their answers where they are made.
pub const ADD: &[u8] =
    b"\x30\x2b\x02\x01\x02\x68\x26\x04\x09cn=e,dc=w\x30\x19\x30\x17\x04\x0bobjectClass\x31\x08\x04\x06device";

const ADDED: &[u8] = b"\x30\x0c\x02\x01\x02\x69\x07\x0a\x01\x00\x04\x00\x04\x00";

pub const DELETE: &[u8] = b"\x30\x0e\x02\x01\x03\x4a\x09cn=e,dc=w";

const DELETED: &[u8] = b"\x30\x0c\x02\x01\x03\x6b\x07\x0a\x01\x00\x04\x00\x04\x00";

// Whichever allocation fails: where one does, the connection is cut, and nothing is answered and nothing made.
#[test]
fn a_change_is_made_exactly_where_it_is_answered(rt: HostRuntime) -> Result<(), Fail> {
    let mut dir = site(rt.alloc())?;
    let mut hub = opened(rt.alloc(), &mut dir)?;
    hear(&mut hub, &mut dir, Event::Bytes(1, ADD))?;
    let added = hub.queue(1).len() == ADDED.len();
    assert_eq!(rt; entries(&dir), if added { 4 } else { 3 }, "the add");
    assert_eq!(rt; hub.was_cut(), !added, "the add");
    hear(&mut hub, &mut dir, Event::Bytes(2, DELETE))?;
    let deleted = hub.queue(2) == DELETED;
    assert_eq!(rt;
        entries(&dir),
        if added && !deleted { 4 } else { 3 },
        "the delete"
    );
    Ok(())
}
