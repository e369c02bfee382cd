//! The loop over a link that fails.

use aci_index::IndexedDir;
use dir_tree::Tree;
use session_hub::{Bounds, Ended, serve_loop};
use std::alloc::Global;
use std::test::Fail;
use wire_io::ScriptLink;

/// Serves the link over a directory without entries.
pub fn serve(alloc: Global, link: &mut ScriptLink) -> Ended {
    let Ok(mut dir) = IndexedDir::new(alloc, Tree::new(alloc)) else {
        return Ended::NoMemory;
    };
    serve_loop(alloc, &mut dir, link, 100, Bounds::NONE)
}

#[test]
fn the_loop_ends_where_its_link_fails(rt: HostRuntime) -> Result<(), Fail> {
    let alloc = rt.alloc();
    let (events, failing) = (Vec::new(alloc), [0u64].to_vec(alloc)?);
    let mut link = ScriptLink::new(alloc, events, failing, Vec::new(alloc), Vec::new(alloc));
    assert_eq!(rt; serve(alloc, &mut link), Ended::LinkFault);
    let again = serve(alloc, &mut link);
    assert_eq!(rt; again, Ended::Stopped, "the next call gives Stop");
    Ok(())
}
