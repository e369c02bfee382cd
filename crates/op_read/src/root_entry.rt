//! The root DSE (RFC 4512 5.1).

ghost use Rattle.std.specs.Prelude.{◌≡◌, ◌++◌, ◌||◌, ◌&&◌, not, true, false, [], ◌∷◌, IfOk, OnOk, codes, map, flat_map, if◌then◌else◌};
ghost use Rattle.std.specs.List.{list_any};
ghost use Rattle.std.specs.Str.{bytes_eq};
ghost use Rattle.dir_tree.specs.schema_tables.Naming.{is_same_name};
ghost use Rattle.page_core.specs.read_model.RootEntry.{suffix_name, is_root_chosen_by, is_root_chosen, sent_root, root_entry, asks_for_root, finds_root};
ghost use Rattle.directory.specs.Asking.{view_in};
ghost use Rattle.op_read.specs.Rooting.{root_of, root_sent_of, roots_with};

use dir_tree::NoMemory;
use dir_tree::schema_tables::{AttrId, attr_named};
use directory::{Asking, Dir, copied, printed};
use ldap_msg::plain_values::{Octets, OneOrMany};
use ldap_msg::{Filter, KindValues, Node, Reply, SearchRequest};
use std::alloc::Global;

/// An attribute of the root DSE.
#[derive(Clone, Copy)]
pub(crate) struct RootAttribute<'a> {
    pub(crate) name: &'static str,
    pub(crate) operational: bool,
    pub(crate) values: &'a [&'a [u8]],
}

// Whether the text is the attribute's name, or the object identifier of objectClass.
fn is_named(attribute: RootAttribute<'_>, text: &[u8]) -> bool
    ensures exact { result ≡ (is_same_name attribute.entry.name.now text.now
        || (not attribute.entry.operational && bytes_eq text.now (codes "2.5.4.0"))) }
{
    attribute.name.as_bytes().eq_ignore_ascii_case(text)
        || (!attribute.operational && text == b"2.5.4.0".as_slice())
}

// Whether the text chooses the attribute.
fn is_root_chosen_by(attribute: RootAttribute<'_>, text: &[u8]) -> bool
    ensures exact { result ≡ is_root_chosen_by (root_of attribute.entry) text.now }
{
    if text == b"*".as_slice() {
        !attribute.operational
    } else if text == b"+".as_slice() {
        attribute.operational
    } else {
        is_named(attribute, text)
    }
}

// Whether a text chooses the attribute.
fn is_any_choosing(attribute: RootAttribute<'_>, texts: &[Octets]) -> bool
    ensures exact { result ≡ list_any (is_root_chosen_by (root_of attribute.entry)) texts.now }
{
    texts
        .iter()
        .any(|text| is_root_chosen_by(attribute, text.as_slice()))
}

// Whether the selection chooses the attribute.
fn is_root_chosen(attribute: RootAttribute<'_>, texts: &[Octets]) -> bool
    ensures exact { result ≡ is_root_chosen texts.now (root_of attribute.entry) }
{
    match texts {
        [] => !attribute.operational,
        [_, ..] => is_any_choosing(attribute, texts),
    }
}

// The values in memory of their own.
fn copies(alloc: Global, values: &[&[u8]]) -> Result<Vec<Octets>, NoMemory>
    ensures ok { IfOk result (λ copies. copies.items ≡ map (λ value. value.now) values.now) }
{
    let mut copies = Vec::with_capacity(alloc, values.len())?;
    for value in values {
        copies.push(copied(alloc, *value)?)?;
    }
    Ok(copies)
}

// The values that are sent, if values are.
fn sent_values(
    alloc: Global,
    kinds_only: bool,
    values: &[&[u8]],
) -> Result<OneOrMany<Octets>, NoMemory>
    ensures ok { IfOk result (λ sent. sent
        ≡ (if kinds_only then [] else map (λ value. value.now) values.now)) }
{
    if kinds_only {
        return Ok(OneOrMany::from_vec(Vec::new(alloc)));
    }
    Ok(OneOrMany::from_vec(copies(alloc, values)?))
}

// The attribute as it is sent.
fn sent_root(
    alloc: Global,
    kinds_only: bool,
    attribute: RootAttribute<'_>,
) -> Result<KindValues, NoMemory>
    ensures ok { IfOk result (λ sent. sent ≡ sent_root kinds_only (root_of attribute.entry)) }
{
    let kind = copied(alloc, attribute.name.as_bytes())?;
    let values = sent_values(alloc, kinds_only, attribute.values)?;
    Ok(KindValues { kind, values })
}

// Puts the attribute at the end, if it is chosen.
fn put_root(
    alloc: Global,
    request: &SearchRequest,
    attribute: RootAttribute<'_>,
    sent: &mut Vec<KindValues>,
) -> Result<(), NoMemory>
    ensures ok { OnOk result (sent.new.items
        ≡ sent.old.items ++ root_sent_of request.now (root_of attribute.entry)) }
{
    if is_root_chosen(attribute, request.selection.as_slice()) {
        sent.push(sent_root(alloc, request.kinds_only, attribute)?)?;
    }
    Ok(())
}

// The name of the suffix as text; empty where the tree is.
fn suffix_name<D: Dir>(alloc: Global, asking: &Asking<'_, D>) -> Result<Octets, NoMemory>
    ensures ok { IfOk result (λ name.
        name ≡ suffix_name (view_in (D.rows asking.now.dir.now) asking.now.who.now)) }
{
    let tree = asking.dir.tree();
    let Some(number) = tree.suffix() else {
        return Ok(Octets::from_vec(Vec::new(alloc)));
    };
    match tree.at(number) {
        Some(entry) => printed(alloc, entry.name()),
        None => Ok(Octets::from_vec(Vec::new(alloc))),
    }
}

// The attributes that are sent, the naming context being the suffix's name.
fn sent_roots(
    alloc: Global,
    request: &SearchRequest,
    suffix: &[u8],
) -> Result<Vec<KindValues>, NoMemory>
    ensures ok { IfOk result (λ sent.
        sent.items ≡ flat_map (root_sent_of request.now) (roots_with suffix.now)) }
{
    let mut sent = Vec::new(alloc);
    let classes = [b"top".as_slice()];
    put_root(
        alloc,
        request,
        user_attribute("objectClass", &classes),
        &mut sent,
    )?;
    let contexts = [suffix];
    put_root(
        alloc,
        request,
        operational_attribute("namingContexts", &contexts),
        &mut sent,
    )?;
    let controls = [
        b"1.3.6.1.4.1.4203.1.10.1".as_slice(),
        b"1.2.840.113556.1.4.319".as_slice(),
    ];
    let control = operational_attribute("supportedControl", &controls);
    put_root(alloc, request, control, &mut sent)?;
    let versions = [b"3".as_slice()];
    put_root(
        alloc,
        request,
        operational_attribute("supportedLDAPVersion", &versions),
        &mut sent,
    )?;
    Ok(sent)
}

fn user_attribute<'a>(name: &'static str, values: &'a [&'a [u8]]) -> RootAttribute<'a>
    ensures exact { root_of result ≡ record { name = name.now; operational = false; values = map (λ value. value.now) values.now } }
{
    RootAttribute {
        name,
        operational: false,
        values,
    }
}

fn operational_attribute<'a>(name: &'static str, values: &'a [&'a [u8]]) -> RootAttribute<'a>
    ensures exact { root_of result ≡ record { name = name.now; operational = true; values = map (λ value. value.now) values.now } }
{
    RootAttribute {
        name,
        operational: true,
        values,
    }
}

/// The root DSE as it is sent, with the attributes that are chosen. It is under no access control. The error comes
/// where memory is wanted.
pub(crate) fn root_entry<D: Dir>(
    alloc: Global,
    asking: &Asking<'_, D>,
    request: &SearchRequest,
) -> Result<Reply, NoMemory>
    ensures ok { IfOk result (λ reply.
        reply ≡ root_entry (view_in (D.rows asking.now.dir.now) asking.now.who.now) request.now) }
{
    let suffix = suffix_name(alloc, asking)?;
    let sent = sent_roots(alloc, request, suffix.as_slice())?;
    let name = Octets::from_vec(Vec::new(alloc));
    Ok(Reply::Entry(name, OneOrMany::from_vec(sent)))
}

// Whether the filter asks whether there is an objectClass.
fn asks_for_root(filter: &Filter) -> bool
    ensures exact { result ≡ asks_for_root filter.now }
{
    match &filter.node {
        Node::Present(kind) => match attr_named(kind.as_slice()) {
            Some(kind) => kind.0 == AttrId::OBJECT_CLASS.0,
            None => false,
        },
        Node::And(_)
        | Node::Or(_)
        | Node::Not(_)
        | Node::Equal(_, _)
        | Node::Parts(_, _, _, _)
        | Node::AtLeast(_, _)
        | Node::AtMost(_, _)
        | Node::Approx(_, _)
        | Node::Extensible(_) => false,
    }
}

/// Whether the search of the empty name finds the root DSE: its filter asks for the presence of objectClass, and not
/// for subentries alone.
pub(crate) fn finds_root(request: &SearchRequest, subentries: Option<bool>) -> bool
    ensures exact { result ≡ finds_root request.now subentries }
{
    asks_for_root(&request.filter) && !subentries.unwrap_or(false)
}
