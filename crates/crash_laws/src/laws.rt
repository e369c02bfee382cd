//! Laws of the file in which a server keeps its changes: each function computes nothing, and what it ensures is a law.

ghost use Rattle.crash_laws.specs.Asking.{AsksWithOctets};
ghost use Rattle.crash_laws.specs.Written.{BeginsWithItsHead, IsReadAsWritten};
ghost use Rattle.crash_laws.specs.Going.{WritesItsFileOn, WritesItsFileOnInTurn};
ghost use Rattle.crash_laws.specs.Crashes.{ACrashKeepsWhatWasShown, ACrashKeepsWhatWasThere};
ghost use Rattle.crash_laws.specs.Starting.{StartsWithWhatWasWritten, BeginsWithTheHeadOfItsData, StartsWithTheDataWhereTheHeadIsTorn, AStartAfterACrashHasWhatWasShown};

use change_replay::laws::what_was_accepted_is_recovered;

/// A message of octets asks with names and values of octets (RFC 4511 5.1).
pub fn a_message_of_octets_asks_with_octets()
    ensures exact { AsksWithOctets }
{}

/// The head of a data file begins a file of changes, in which there are none yet.
pub fn a_file_begins_with_its_head()
    ensures exact { BeginsWithItsHead }
{}

/// A file of accepted changes is whole. It is read again, and the changes that it says, replayed over the first entries,
/// leave what they left when they were accepted.
pub fn a_written_file_is_read_again()
    ensures exact { IsReadAsWritten }
{
    what_was_accepted_is_recovered();
}

/// A server that keeps its changes writes its file on: behind whatever octets come, over whatever connections, the file with
/// the changes of the sessions is that of the changes that were accepted before and since, and the entries are those that
/// these left. What was accepted early is a front of what was accepted in all.
pub fn a_server_writes_its_file_on()
    ensures exact { WritesItsFileOn }
    ensures front { WritesItsFileOnInTurn }
{}

/// A crash keeps what was shown. Wherever octets of a reply were taken, let a text be left of the file that has at least what
/// was stored before them, and of all that was to be written a front. Its whole part is then a file of accepted changes
/// again, which is read again: it has all those that the reply may show, and a front of the others. Where nothing was taken
/// yet, it has those that the file had.
pub fn a_crash_keeps_what_was_shown()
    ensures exact { ACrashKeepsWhatWasShown }
    ensures begun { ACrashKeepsWhatWasThere }
{
    a_server_writes_its_file_on();
    what_was_accepted_is_recovered();
}

/// A start applies the changes of a file that a server wrote, whatever is torn behind it. The head of its data file begins such
/// a file, and where that was begun and isn't whole, the entries are those of the data file.
pub fn a_start_applies_what_was_written()
    ensures exact { StartsWithWhatWasWritten }
    ensures head { BeginsWithTheHeadOfItsData }
    ensures torn { StartsWithTheDataWhereTheHeadIsTorn }
{
    a_file_begins_with_its_head();
    a_written_file_is_read_again();
}

/// A start after a crash has what was shown: the entries are those that the changes left which the reply may show, and a front
/// of the others; and from there the server writes its file on.
pub fn a_start_after_a_crash_has_what_was_shown()
    ensures exact { AStartAfterACrashHasWhatWasShown }
{
    a_crash_keeps_what_was_shown();
    a_start_applies_what_was_written();
}
