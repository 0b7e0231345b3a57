// The states of a core on a line.
use machine::core_state::CoreState;

#[test]
fn states_have_their_codes(rt: HostRuntime) {
    assert!(rt; CoreState::I.code() == 0);
    assert!(rt; CoreState::Sti.code() == 3);
    assert!(rt; CoreState::Imd.code() == 8);
}
