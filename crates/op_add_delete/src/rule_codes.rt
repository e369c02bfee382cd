//! The result codes of rules.

ghost use Rattle.std.specs.Prelude.{◌≡◌};
ghost use Rattle.op_add_delete.specs.RuleCodes.{rule_code};

use ldap_msg::ResultCode;
use ldif_load::schema_rules::EntryRule;

/// The code that tells of an entry that breaks the rule (RFC 4511 appendix A): its number is the rule's.
pub fn rule_code(rule: EntryRule) -> ResultCode
    ensures exact { result ≡ rule_code rule }
{
    match rule {
        EntryRule::RdnValues => ResultCode::NotAllowedOnRdn,
        EntryRule::StructuralClass => ResultCode::ObjectClassModsProhibited,
        EntryRule::Classes => ResultCode::ObjectClassViolation,
        EntryRule::Syntaxes => ResultCode::InvalidAttributeSyntax,
        EntryRule::SingleValues => ResultCode::ConstraintViolation,
        EntryRule::Place => ResultCode::NamingViolation,
        EntryRule::Limits => ResultCode::AdminLimitExceeded,
    }
}
