//! Values from octets.

ghost use Rattle.std.specs.Prelude.{◌≡◌, ◌↔◌, Some, None, IfOk, IsErrOf};
ghost use Rattle.match_rules.specs.declared.errors.PrepareFault.TheVariants.{NotOfSyntax};
ghost use Rattle.schema_tables.specs.Attributes.{IsAttrId};
ghost use Rattle.dn_names.specs.parsing.NameText.{read_name};
ghost use Rattle.dn_names.specs.NameValues.{read_key, value_key, value_of};

use crate::error::BadName;
use crate::keys::{has_own_key, make_key};
use crate::parsing::parse;
use crate::printing::make_name_key;
use crate::value::Value;
use match_rules::PrepareFault;
use schema_tables::{AttrId, Syntax, row};
use std::alloc::Global;

/// The value of an attribute type of the table: the octets with their key. `NotOfSyntax` comes only where the octets
/// are not of the type's syntax, and `NoMemory` may come in place of any answer.
///
/// Of the syntaxes of subtrees and of access control items any octets are taken, and the key is the octets.
#[tactic(auto, unfolding(crate::specs::NameValues::value_of))]
pub fn make_value(alloc: Global, kind: AttrId, octets: Vec<u8>) -> Result<Value, PrepareFault>
    requires { IsAttrId kind.0 }
    ensures ok { IfOk result (λ value. value_of kind.0 octets.items ≡ Some value) }
    ensures not_of_syntax { IsErrOf result NotOfSyntax → value_of kind.0 octets.items ≡ None }
{
    match row(kind) {
        Some(row) if has_own_key(row.syntax, &octets) => Ok(Value::from_one(octets)),
        Some(row) => match syntax_key(alloc, row.syntax, &octets) {
            Ok(key) => Ok(Value::from_parts(octets, key)?),
            Err(fault) => Err(fault),
        },
        None => Err(PrepareFault::NotOfSyntax),
    }
}

// The key of octets of a syntax.
fn syntax_key(alloc: Global, syntax: Syntax, octets: &[u8]) -> Result<Vec<u8>, PrepareFault>
    ensures ok { IfOk result (λ key. value_key syntax octets.now ≡ Some key.items) }
    ensures not_of_syntax { IsErrOf result NotOfSyntax → value_key syntax octets.now ≡ None }
{
    match syntax {
        Syntax::Name => read_name_key(alloc, octets),
        _ => make_key(alloc, syntax, octets),
    }
}

// The key of a name's text.
fn read_name_key(alloc: Global, octets: &[u8]) -> Result<Vec<u8>, PrepareFault>
    ensures ok { IfOk result (λ key. read_key (read_name octets.now) ≡ Some key.items) }
    ensures not_of_syntax { IsErrOf result NotOfSyntax → read_key (read_name octets.now) ≡ None }
{
    match parse(alloc, octets) {
        Ok(name) => Ok(make_name_key(alloc, &name)?),
        Err(BadName::NoMemory) => Err(PrepareFault::NoMemory),
        Err(_) => Err(PrepareFault::NotOfSyntax),
    }
}
