//! Contracts that stand and are left alone, contracts of other terms, and contracts without units.

use crate::tests::attackers::Attacker;
use crate::tests::attacks::attack;
use crate::tests::deals::HASHKEYS;
use std::test::Fail;

/// Alice, who leads, locks her units, and that is all.
const STARTER: &str = r#""alice", => "alice","actor":{"strategy":"attacker"}, && "stop" => "fair"
done
swap report 1
swap hashkeys start 10 delta 10 bound 2
ledger 0 alice -> bob amount 100
0 alice publish correct: accepted
end height 71 alice 0 bob 0 held 100
ledger 1 bob -> carol amount 5
0 bob publish correct: accepted
61 bob refund: accepted
end height 71 bob 5 carol 0 held 0
ledger 2 carol -> alice amount 1
0 carol publish correct: accepted
61 carol refund: accepted
end height 71 carol 1 alice 0 held 0
party alice deviator: NoDeal
party bob conforming: NoDeal
party carol conforming: NoDeal
findings 0
"#;

/// Alice locks her units under a digest that isn't the deal's.
const RELOCKER: &str = r#""alice", => "alice","actor":{"strategy":"attacker"}, && "stop" => "fair"
done
swap report 1
swap hashkeys start 10 delta 10 bound 2
ledger 0 alice -> bob amount 100
0 alice publish wrong: accepted
end height 71 alice 0 bob 0 held 100
ledger 1 bob -> carol amount 5
end height 71 bob 5 carol 0 held 0
ledger 2 carol -> alice amount 1
end height 71 carol 1 alice 0 held 0
party alice deviator: NoDeal
party bob conforming: NoDeal
party carol conforming: NoDeal
findings 0
"#;

/// Bob gives carol the units beforehand, and then publishes without any.
const MOVER: &str = r#""bob", => "bob","actor":{"strategy":"attacker"}, && "stop" => "fair"
done
swap report 1
swap hashkeys start 10 delta 10 bound 2
ledger 0 alice -> bob amount 100
0 alice publish correct: accepted
61 alice refund: accepted
end height 71 alice 100 bob 0 held 0
ledger 1 bob -> carol amount 5
0 bob transfer 5 to carol: accepted
1 bob publish correct: NoFunds 0
end height 71 bob 0 carol 5 held 0
ledger 2 carol -> alice amount 1
end height 71 carol 1 alice 0 held 0
party alice conforming: NoDeal
party bob deviator: NoDeal
party carol conforming: NoDeal
findings 0
"#;

#[test]
fn a_leader_publishes_and_does_nothing_more(rt: HostRuntime) -> Result<(), Fail> {
    attack(
        &rt,
        rt.alloc(),
        Attacker::Starter,
        HASHKEYS,
        STARTER,
        "done",
    )
}

#[test]
fn a_contract_has_another_hashlock(rt: HostRuntime) -> Result<(), Fail> {
    attack(
        &rt,
        rt.alloc(),
        Attacker::Relocker,
        HASHKEYS,
        RELOCKER,
        "done",
    )
}

#[test]
fn units_are_moved_away(rt: HostRuntime) -> Result<(), Fail> {
    attack(&rt, rt.alloc(), Attacker::Mover, HASHKEYS, MOVER, "done")
}
