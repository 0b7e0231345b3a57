// The four kinds of policy.
use alternating::Alternating;
use capped::Capped;
use per_line::PerLine;
use policy::Policy;
use policy::fixed::Fixed;
use policy::holds::FourHolds;
use setup::bound::Caps;
use setup::class::Class;

fn four(cc: u16, cn: u16, nc: u16, nn: u16) -> FourHolds {
    [cc, cn, nc, nn].into()
}

fn caps(critical: u16, noncritical: u16) -> Caps {
    Caps {
        critical,
        noncritical,
    }
}

/// The holds for now on a line, of critical and of non-critical holders.
fn holds<P: Policy>(policy: &mut P, line: usize) -> [u16; 4] {
    let (cc, cn) = policy.holds(0, Class::Critical, line);
    let (nc, nn) = policy.holds(7, Class::NonCritical, line);
    [cc, cn, nc, nn]
}

fn holds_after_a_slot<P: Policy>(policy: &mut P) -> [u16; 4] {
    policy.slot_passed();
    holds(policy, 0)
}

#[test]
fn policies_have_their_kinds(rt: HostRuntime) {
    assert!(rt; <Fixed as Policy>::KIND.number() == 1);
    assert!(rt; <PerLine as Policy>::KIND.number() == 2);
    assert!(rt; <Alternating as Policy>::KIND.number() == 3);
    assert!(rt; <Capped<Fixed> as Policy>::KIND.number() == 4);
}

#[test]
fn fixed_holds_stay(rt: HostRuntime) {
    let mut policy = Fixed::of(four(0, 8, 2, 4));
    assert!(rt; policy.caps() == caps(1, 2));
    assert!(rt; holds(&mut policy, 31) == [0, 8, 2, 4]);
    assert!(rt; holds_after_a_slot(&mut policy) == [0, 8, 2, 4]);
}

#[test]
fn holds_by_line_are_cut_to_the_caps(rt: HostRuntime) {
    let table = [1, 2, 3, 4, 50, 60, 70, 80, 5, 6, 7];
    let mut policy = PerLine::over(&table, caps(9, 0));
    assert!(rt; holds(&mut policy, 0) == [1, 2, 1, 4]);
    assert!(rt; holds(&mut policy, 1) == [9, 60, 1, 80]);
    assert!(rt; policy.caps() == caps(9, 1));
    assert!(rt; holds(&mut policy, 2) == [0, 0, 0, 0]);
}

#[test]
fn two_sets_rule_in_turn(rt: HostRuntime) {
    let mut policy = Alternating::of(four(1, 1, 1, 1), 2, four(5, 6, 7, 8), 0);
    assert!(rt; policy.caps() == caps(5, 7));
    assert!(rt; holds(&mut policy, 0) == [1, 1, 1, 1]);
    assert!(rt; holds_after_a_slot(&mut policy) == [1, 1, 1, 1]);
    assert!(rt; holds_after_a_slot(&mut policy) == [5, 6, 7, 8]);
    assert!(rt; holds_after_a_slot(&mut policy) == [1, 1, 1, 1]);
}

#[test]
fn caps_of_its_own_over_two_sets(rt: HostRuntime) {
    let below = Alternating::of(four(1, 1, 1, 1), 1, four(5, 6, 7, 8), 1);
    let mut policy = Capped::over(below, caps(3, 65535));
    assert!(rt; policy.caps() == caps(3, 7));
    assert!(rt; holds(&mut policy, 0) == [1, 1, 1, 1]);
    assert!(rt; holds_after_a_slot(&mut policy) == [3, 6, 7, 8]);
}
