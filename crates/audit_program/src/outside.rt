//! What the program stands in.

use command_files::wire_io::{Shelf, Sink};
use std::marker::Model;

/// A shelf of files and a sink for what is put, which a contract sees as what they tell and count.
#[derive(Drop)]
pub struct Outside<H: Shelf, K: Sink> {
    pub shelf: H,
    pub out: K,
}

impl<H: Shelf, K: Sink> Model for Outside<H, K> {
    ghost use Rattle.command_files.specs.Outside.{shelved, written};
    ghost use Rattle.audit_program.specs.Auditing.{Outside, beside};

    ghost Value = { Outside };

    ghost view = { λ both. beside (shelved (H.files both.shelf) (H.faults both.shelf)) (written (K.put both.out) (K.faults both.out)) };
}
