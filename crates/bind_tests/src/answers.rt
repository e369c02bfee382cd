//! What binds come to over a small tree.
use acdf_filters::aci_item::Level;
use dir_tree::dn_names::{Value, make_value, parse, print};
use dir_tree::schema_tables::{AttrId, attr_named};
use dir_tree::{Entry, Tree};
use ldap_msg::plain_values::Octets;
use ldap_msg::{Auth, BindRequest};
use op_bind::{Bound, bind, bind_with_password};
use std::alloc::Global;
use std::process::Abort;
use std::test::Fail;

// The names of the entries, and their passwords.
static ENTRIES: [(&str, &[&str]); 4] = [
    ("dc=Example", &["top"]),
    (
        "uid=ada,dc=Example",
        &["{SHA256}ungWv48Bz+pBQUDeXa4iI7ADYaOWF3qctBD/YfIAFa0="],
    ),
    ("uid=Bob,dc=Example", &["{MD5}x", "bob1", "bob2"]),
    ("uid=cy,dc=Example", &[]),
];

fn value(alloc: Global, text: &str) -> Result<Value, Fail> {
    let Some(kind) = attr_named(b"userPassword") else {
        return Err(Fail::from("no type"));
    };
    let octets = text.as_bytes().to_vec(alloc)?;
    let value = make_value(alloc, kind, octets)?;
    Ok(value)
}

fn tree(alloc: Global) -> Result<Tree, Fail> {
    let mut tree = Tree::new(alloc);
    for (name, passwords) in ENTRIES {
        let mut entry = Entry::new(alloc, parse(alloc, name.as_bytes())?)?;
        for password in passwords {
            let _added = entry.push(AttrId::USER_PASSWORD, value(alloc, password)?)?;
        }
        insert(&mut tree, entry)?;
    }
    Ok(tree)
}

fn insert(tree: &mut Tree, entry: Entry) -> Result<(), Fail> {
    if entry.name().len() == 0 {
        return Err(Fail::from("no name"));
    }
    let _number = tree.insert(entry)?;
    Ok(())
}

// How a row authenticates: by a password, or by another method.
#[derive(Clone, Copy)]
enum How {
    Password(&'static str),
    Method(u8),
}

fn octets(alloc: Global, text: &str) -> Result<Octets, Fail> {
    Ok(Octets::from_vec(text.as_bytes().to_vec(alloc)?))
}

fn request(alloc: Global, version: u8, name: &str, how: How) -> Result<BindRequest, Fail> {
    Ok(BindRequest {
        version,
        name: octets(alloc, name)?,
        auth: match how {
            How::Password(password) => Auth::Simple(octets(alloc, password)?),
            How::Method(tag) => Auth::Other(tag),
        },
    })
}

// The name of the requester and `simple`, or `anonymous`.
fn told(alloc: Global, bound: &Bound) -> Result<String, Fail> {
    let mut out = String::new(alloc);
    match &bound.who.name {
        Some(name) => print(alloc, name, &mut out)?,
        None => out.push_str("anonymous")?,
    }
    if bound.who.level == Level::Simple {
        out.push_str(" simple")?;
    }
    Ok(out)
}

// A version, a name, how it is shown, the result code, and who asks from then on.
type Row = (u8, &'static str, How, u8, &'static str);

static ROWS: [Row; 24] = [
    // RFC 4513 5.1.1 to 5.1.3
    (3, "", How::Password(""), 0, "anonymous"),
    (3, "uid=Bob,dc=Example", How::Password(""), 53, "anonymous"),
    (
        3,
        "uid=ada,dc=Example",
        How::Password("abc"),
        0,
        "uid=ada,dc=Example simple",
    ),
    (
        3,
        "uid=ada,dc=Example",
        How::Password("abd"),
        49,
        "anonymous",
    ),
    // each of the passwords, and none of another scheme
    (
        3,
        "uid=Bob,dc=Example",
        How::Password("bob1"),
        0,
        "uid=Bob,dc=Example simple",
    ),
    (
        3,
        "uid=Bob,dc=Example",
        How::Password("bob2"),
        0,
        "uid=Bob,dc=Example simple",
    ),
    (
        3,
        "uid=Bob,dc=Example",
        How::Password("{MD5}x"),
        49,
        "anonymous",
    ),
    (3, "uid=Bob,dc=Example", How::Password("x"), 49, "anonymous"),
    // the name is the entry's
    (
        3,
        "UID = bOB , DC = eXAMPLE",
        How::Password("bob1"),
        0,
        "uid=Bob,dc=Example simple",
    ),
    (
        3,
        "dc=example",
        How::Password("top"),
        0,
        "dc=Example simple",
    ),
    // no password, no entry, and an entry above
    (3, "uid=cy,dc=Example", How::Password("x"), 49, "anonymous"),
    (3, "uid=dan,dc=Example", How::Password("x"), 49, "anonymous"),
    (
        3,
        "uid=dan,dc=Example",
        How::Password("top"),
        49,
        "anonymous",
    ),
    (3, "uid=dan,dc=Example", How::Password(""), 53, "anonymous"),
    // a password alone
    (3, "", How::Password("top"), 49, "anonymous"),
    (3, " ", How::Password(""), 0, "anonymous"),
    (3, " ", How::Password("x"), 49, "anonymous"),
    // no name
    (3, "Bob", How::Password("bob1"), 34, "anonymous"),
    (3, "Bob", How::Password(""), 34, "anonymous"),
    // another method, before the name is looked at
    (3, "uid=Bob,dc=Example", How::Method(0xA3), 7, "anonymous"),
    (3, "Bob", How::Method(0xA3), 7, "anonymous"),
    // another version, before all else
    (
        2,
        "uid=Bob,dc=Example",
        How::Password("bob1"),
        2,
        "anonymous",
    ),
    (4, "", How::Password(""), 2, "anonymous"),
    (1, "Bob", How::Method(0xA3), 2, "anonymous"),
];

#[test]
fn a_bind_comes_to_the_first_row_that_applies(rt: HostRuntime) -> Result<(), Fail> {
    let tree = tree(rt.alloc())?;
    for (index, (version, name, how, code, who)) in ROWS.iter().enumerate() {
        let request = request(rt.alloc(), *version, name, *how)?;
        let bound = bind(rt.alloc(), &tree, &request)?;
        let told = told(rt.alloc(), &bound)?;
        assert_eq!(rt; bound.code.number(), *code, "code of row {index}");
        assert_eq!(rt; told.as_str(), *who, "requester of row {index}");
    }
    Ok(())
}

#[test]
fn a_lent_name_and_password_come_to_the_same(rt: HostRuntime) -> Result<(), Fail> {
    let tree = tree(rt.alloc())?;
    let bound = bind_with_password(rt.alloc(), &tree, b"UID = bOB , DC = eXAMPLE", b"bob1")?;
    assert_eq!(rt; bound.code.number(), 0, "code");
    assert_eq!(rt;
        told(rt.alloc(), &bound)?.as_str(),
        "uid=Bob,dc=Example simple",
        "requester"
    );
    Ok(())
}
