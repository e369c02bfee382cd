//! What the program stands in.

use command_files::wire_io::{Link, Shelf, Sink};
use std::marker::Model;

/// A shelf of files, a sink for what is printed and a link to connections, which a contract sees as what they tell and count.
#[derive(Drop)]
pub struct Outside<H: Shelf, K: Sink, L: Link> {
    pub shelf: H,
    pub out: K,
    pub link: L,
}

impl<H: Shelf, K: Sink, L: Link> Model for Outside<H, K, L> {
    ghost use Rattle.command_files.specs.Outside.{shelved, written};
    ghost use Rattle.acl_program.specs.program.Outside.{Outside, beside, linked};

    ghost Value = { Outside };

    ghost view = { λ all. beside (shelved (H.files all.shelf) (H.faults all.shelf)) (written (K.put all.out) (K.faults all.out))
        (linked (L.journal all.link) (L.plan all.link) (L.faults all.link) (L.store_faults all.link) (L.lost all.link) (L.refusals all.link)) };
}
