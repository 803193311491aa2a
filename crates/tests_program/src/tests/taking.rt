//! Claims, refunds and transfers in turn, whatever stands.

use crate::tests::attackers::Attacker;
use crate::tests::attacks::attack;
use crate::tests::deals::{HASHKEYS, TIMELOCKS};
use std::alloc::Global;
use std::sync::Wait;
use std::test::Fail;
use std::thread::Threads;

/// Bob asks for what he may not have, and gives away what he was to lock: what stands on the
/// ledgers then, and who was found.
const TAKEN: &str = r#"ledger 0 alice -> bob amount 100
0 alice publish correct: accepted
3 bob claim: StillLocked 0
4 bob refund: NotParty
5 bob transfer 1 to alice: NoFunds 0
9 bob claim: StillLocked 0
10 bob refund: NotParty
11 bob transfer 1 to alice: NoFunds 0
15 bob claim: StillLocked 0
16 bob refund: NotParty
17 bob transfer 1 to alice: NoFunds 0
21 bob claim: StillLocked 0
22 bob refund: NotParty
23 bob transfer 1 to alice: NoFunds 0
27 bob claim: StillLocked 0
28 bob refund: NotParty
29 bob transfer 1 to alice: NoFunds 0
33 bob claim: StillLocked 0
34 bob refund: NotParty
35 bob transfer 1 to alice: NoFunds 0
39 bob claim: StillLocked 0
40 bob refund: NotParty
41 bob transfer 1 to alice: NoFunds 0
45 bob claim: StillLocked 0
46 bob refund: NotParty
47 bob transfer 1 to alice: NoFunds 0
51 bob claim: StillLocked 0
52 bob refund: NotParty
53 bob transfer 1 to alice: NoFunds 0
57 bob claim: StillLocked 0
58 bob refund: NotParty
59 bob transfer 1 to alice: NoFunds 0
61 alice refund: accepted
63 bob claim: Settled
64 bob refund: Settled
end height 71 alice 100 bob 0 held 0
ledger 1 bob -> carol amount 5
0 bob claim: NoContract
1 bob refund: NoContract
2 bob transfer 1 to carol: accepted
6 bob claim: NoContract
7 bob refund: NoContract
8 bob transfer 1 to carol: accepted
12 bob claim: NoContract
13 bob refund: NoContract
14 bob transfer 1 to carol: accepted
18 bob claim: NoContract
19 bob refund: NoContract
20 bob transfer 1 to carol: accepted
24 bob claim: NoContract
25 bob refund: NoContract
26 bob transfer 1 to carol: accepted
30 bob claim: NoContract
31 bob refund: NoContract
32 bob transfer 1 to carol: NoFunds 0
36 bob claim: NoContract
37 bob refund: NoContract
38 bob transfer 1 to carol: NoFunds 0
42 bob claim: NoContract
43 bob refund: NoContract
44 bob transfer 1 to carol: NoFunds 0
48 bob claim: NoContract
49 bob refund: NoContract
50 bob transfer 1 to carol: NoFunds 0
54 bob claim: NoContract
55 bob refund: NoContract
56 bob transfer 1 to carol: NoFunds 0
60 bob claim: NoContract
61 bob refund: NoContract
end height 71 bob 0 carol 5 held 0
ledger 2 carol -> alice amount 1
end height 71 carol 1 alice 0 held 0
party alice conforming: NoDeal
party bob deviator: NoDeal
party carol conforming: NoDeal
findings 0
"#;

/// In a deal with that mode Bob comes to the same.
fn takes<R: Threads + Wait + Sync>(
    rt: &R,
    alloc: Global,
    deal: &str,
    edits: &str,
    mode: &str,
) -> Result<(), Fail> {
    let taken = TAKEN;
    let case = format!(in alloc;
        "{edits}\ndone\nswap report 1\nswap {mode} start 10 delta 10 bound 2\n{taken}"
    )?;
    attack(rt, alloc, Attacker::Taker, deal, case.as_str(), "done")
}

#[test]
fn bob_claims_refunds_and_transfers(rt: HostRuntime) -> Result<(), Fail> {
    takes(
        &rt,
        rt.alloc(),
        HASHKEYS,
        r#""bob", => "bob","actor":{"strategy":"attacker"}, && "stop" => "fair""#,
        "hashkeys",
    )?;
    takes(
        &rt,
        rt.alloc(),
        TIMELOCKS,
        r#""bob", => "bob","actor":{"strategy":"attacker"}, && {"swap":1, => {"finish":"fair","swap":1,"#,
        "timelocks",
    )
}
