//! Laws, which do nothing: each is called once.
use bb_memory_bump::shared_bump::{shared_bump_law, shared_bump_meeting_law};
use bb_memory_shared_pools::shared_pool::{shared_pool_law, shared_pool_meeting_law};

#[test]
fn laws_do_nothing(_rt: HostRuntime) {
    shared_bump_law();
    shared_bump_meeting_law();
    shared_pool_law();
    shared_pool_meeting_law();
}
