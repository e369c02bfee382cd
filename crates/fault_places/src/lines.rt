//! Lines of no form that may stand there.

ghost use Rattle.std.specs.Prelude.{◌≡◌, ◌++◌, OnOk, string_bytes};
ghost use Rattle.fault_places.specs.Saying.{said};
ghost use Rattle.fault_places.specs.LineFaults.{form_said};

use crate::saying::{NoMemory, put_said};
use ldif_records::LineCause;

// What is said of a cause.
fn form_said(cause: LineCause) -> &'static str
    ensures exact { result.now ≡ form_said cause }
{
    match cause {
        LineCause::Syntax => {
            "a record is \"dn: name\" and lines \"type: value\" behind it, and an empty line ends it\n"
        }
        LineCause::Changetype => "a record with a changetype is no entry\n",
        LineCause::Base64 => "the value behind \"::\" is no padded base64\n",
    }
}

/// Writes what is wrong with a line.
pub(crate) fn put_bad_line(line: u64, cause: LineCause, out: &mut String) -> Result<(), NoMemory>
    ensures ok { OnOk result (string_bytes out.new ≡ string_bytes out.old ++ said line (form_said cause)) }
{
    put_said(line, form_said(cause), out)
}
