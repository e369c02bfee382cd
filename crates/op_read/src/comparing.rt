//! Compares.

ghost use Rattle.std.specs.Prelude.{◌≡◌, ◌&&◌, Some, IfOk, filter};
ghost use Rattle.std.specs.Str.{bytes_eq};
ghost use Rattle.dir_tree.specs.schema_tables.Attributes.{IsAttrId, attr_of};
ghost use Rattle.dir_tree.specs.dn_names.NameValues.{value_of};
ghost use Rattle.dir_tree.specs.tree.Trees.{named_in};
ghost use Rattle.dir_tree.specs.tree.Numbered.{entries_of};
ghost use Rattle.acdf_filters.specs.Asking as protected;
ghost use Rattle.acdf_filters.specs.aci_item.declared.permission.Permission.TheVariants as permission;
ghost use Rattle.page_core.specs.read_model.Views.{view_of, result_of};
ghost use Rattle.page_core.specs.read_model.CompareReplies.{has_equal, compared, readable, compared_in, compared_value, compared_kind, compare_result};
ghost use Rattle.directory.specs.Asking.{view_in};
ghost use Rattle.op_read.specs.Alike.{ComparesAlike};
ghost use Rattle.op_read.specs.Seeing.{row_in};

use acdf_filters::aci_item::Permission;
use acdf_filters::{Item, Requester};
use dir_tree::NoMemory;
use dir_tree::dn_names::{Dn, Value, make_value};
use dir_tree::match_rules::PrepareFault;
use dir_tree::schema_tables::{AttrId, attr_named};
use directory::{Asking, Dir, Target, absent, hidden, read_named, result_of};
use ldap_msg::{CompareRequest, LdapResult, ResultCode};
use std::alloc::{AllocError, Global};

// Whether the value is the one asserted, and may be compared; the decision is taken last.
fn is_equal<D: Dir>(
    target: &Target<'_, '_, D>,
    kind: AttrId,
    asserted: &Value,
    value: &Value,
) -> bool
    ensures exact { result ≡ (bytes_eq asserted.now.key value.now.key
        && (row_in (D.rows target.now.asking.now.dir.now) target.now.asking.now.who.now target.now.entry.now).allows
        (protected.Value kind.0 value.now) permission.Compare) }
{
    asserted.key() == value.key() && target.allows(Item::Value(kind, value), Permission::Compare)
}

// Whether the entry has a value that is the one asserted, and may be compared.
fn has_equal<D: Dir>(target: &Target<'_, '_, D>, kind: AttrId, asserted: &Value) -> bool
    ensures exact { result ≡ has_equal kind.0 asserted.now
        (row_in (D.rows target.now.asking.now.dir.now) target.now.asking.now.who.now target.now.entry.now) }
{
    target
        .entry
        .values(kind)
        .iter()
        .any(|value| is_equal(target, kind, asserted, value))
}

// How the compare of the entry ends.
fn compared<D: Dir>(target: &Target<'_, '_, D>, kind: AttrId, asserted: &Value) -> ResultCode
    ensures exact { result_of result ≡ compared kind.0 asserted.now
        (row_in (D.rows target.now.asking.now.dir.now) target.now.asking.now.who.now target.now.entry.now) }
{
    if !target.allows(Item::Kind(kind), Permission::Compare) {
        if target.allows(Item::Kind(kind), Permission::DiscloseOnError) {
            ResultCode::InsufficientAccessRights
        } else {
            ResultCode::NoSuchAttribute
        }
    } else if !target.entry.has_kind(kind) {
        ResultCode::NoSuchAttribute
    } else if has_equal(target, kind, asserted) {
        ResultCode::CompareTrue
    } else {
        ResultCode::CompareFalse
    }
}

// The compare of the target, which has the name: that is hidden, unless the target may be read.
fn compare_target<D: Dir>(
    alloc: Global,
    target: &Target<'_, '_, D>,
    name: &Dn,
    kind: AttrId,
    asserted: &Value,
) -> Result<LdapResult, NoMemory>
    requires named { named_in name.now (entries_of (D.rows target.now.asking.now.dir.now))
        ≡ Some target.now.entry.now }
    ensures ok { IfOk result (λ ended. ended
        ≡ compared_in (view_in (D.rows target.now.asking.now.dir.now) target.now.asking.now.who.now)
        name.now kind.0 asserted.now
        (filter (readable name.now) (view_in (D.rows target.now.asking.now.dir.now) target.now.asking.now.who.now))) }
{
    target.asking.dir.tree().entries_form_a_tree();
    if target.allows(Item::Entry, Permission::Read) {
        Ok(result_of(alloc, compared(target, kind, asserted)))
    } else {
        hidden(alloc, target, name)
    }
}

// The same of the entry of the name, if there is one.
fn compare_found<D: Dir>(
    alloc: Global,
    asking: &Asking<'_, D>,
    name: &Dn,
    kind: AttrId,
    asserted: &Value,
) -> Result<LdapResult, NoMemory>
    ensures ok { IfOk result (λ ended. ended
        ≡ compared_in (view_in (D.rows asking.now.dir.now) asking.now.who.now) name.now kind.0 asserted.now
        (filter (readable name.now) (view_in (D.rows asking.now.dir.now) asking.now.who.now))) }
{
    asking.dir.tree().entries_form_a_tree();
    match asking.find(name) {
        Some(target) => compare_target(alloc, &target, name, kind, asserted),
        None => absent(alloc, asking, name),
    }
}

// A compare with a value.
fn compare_entry<D: Dir>(
    alloc: Global,
    asking: &Asking<'_, D>,
    name: &Dn,
    kind: AttrId,
    asserted: &Value,
) -> Result<LdapResult, NoMemory>
    ensures ok { IfOk result (λ ended. ended
        ≡ compared_value (view_in (D.rows asking.now.dir.now) asking.now.who.now)
        name.now kind.0 (Some asserted.now)) }
{
    if name.len() == 0 {
        return Ok(result_of(alloc, ResultCode::UnwillingToPerform));
    }
    compare_found(alloc, asking, name, kind, asserted)
}

// The value of a type; None where the octets are not of its syntax.
fn value_asserted(alloc: Global, kind: AttrId, octets: &[u8]) -> Result<Option<Value>, NoMemory>
    requires { IsAttrId kind.0 }
    ensures ok { IfOk result (λ value. value ≡ value_of kind.0 octets.now) }
{
    let octets = octets.to_vec(alloc)?;
    match make_value(alloc, kind, octets) {
        Ok(value) => Ok(Some(value)),
        Err(PrepareFault::NotOfSyntax) => Ok(None),
        Err(PrepareFault::NoMemory) => Err(AllocError),
    }
}

// A compare with a type.
fn compare_value<D: Dir>(
    alloc: Global,
    asking: &Asking<'_, D>,
    name: &Dn,
    kind: AttrId,
    octets: &[u8],
) -> Result<LdapResult, NoMemory>
    requires { IsAttrId kind.0 }
    ensures ok { IfOk result (λ ended. ended
        ≡ compared_value (view_in (D.rows asking.now.dir.now) asking.now.who.now)
        name.now kind.0 (value_of kind.0 octets.now)) }
{
    match value_asserted(alloc, kind, octets)? {
        Some(value) => compare_entry(alloc, asking, name, kind, &value),
        None => Ok(result_of(alloc, ResultCode::InvalidAttributeSyntax)),
    }
}

// A compare with a name.
fn compare_named<D: Dir>(
    alloc: Global,
    asking: &Asking<'_, D>,
    name: &Dn,
    request: &CompareRequest,
) -> Result<LdapResult, NoMemory>
    ensures ok { IfOk result (λ ended. ended
        ≡ compared_kind (view_in (D.rows asking.now.dir.now) asking.now.who.now)
        name.now request.now.value (attr_of request.now.kind)) }
{
    match attr_named(request.kind.as_slice()) {
        Some(kind) => compare_value(alloc, asking, name, kind, request.value.as_slice()),
        None => Ok(result_of(alloc, ResultCode::UndefinedAttributeType)),
    }
}

// A compare, the groups of whose requester are known.
fn compare_known<D: Dir>(
    alloc: Global,
    asking: &Asking<'_, D>,
    request: &CompareRequest,
) -> Result<LdapResult, NoMemory>
    ensures ok { IfOk result (λ ended. ended
        ≡ compare_result (view_in (D.rows asking.now.dir.now) asking.now.who.now) request.now) }
{
    match read_named(alloc, request.name.as_slice())? {
        Some(name) => compare_named(alloc, asking, &name, request),
        None => Ok(result_of(alloc, ResultCode::InvalidDnSyntax)),
    }
}

// The result of a compare.
fn compare_over<D: Dir>(
    alloc: Global,
    dir: &D,
    who: &Requester,
    request: &CompareRequest,
) -> Result<LdapResult, NoMemory>
    ensures ok { IfOk result (λ found. found
        ≡ compare_result (view_of (entries_of (D.rows dir.now)) who.now) request.now) }
{
    let asking = Asking::new(alloc, dir, who)?;
    compare_known(alloc, &asking, request)
}

/// The result of a compare (RFC 4511 4.10, X.511 9.2): `compareTrue` where the entry has an equal value that the
/// requester may compare, `compareFalse` where it has none. What the requester may not know is answered as what is not
/// there: over two trees that differ only in a subtree of which it sees nothing, the result is the same. The error
/// comes where memory is wanted.
pub fn compare<D: Dir>(
    alloc: Global,
    dir: &D,
    who: &Requester,
    request: &CompareRequest,
) -> Result<LdapResult, NoMemory>
    ensures ok { IfOk result (λ found. found
        ≡ compare_result (view_of (entries_of (D.rows dir.now)) who.now) request.now) }
    ensures twins { IfOk result (λ found. ComparesAlike who.now (entries_of (D.rows dir.now)) request.now found) }
{
    compare_over(alloc, dir, who, request)
}
