//! Drawings by `sample` with `--fast`.

use crate::whole::compare_table;
use std::test::Fail;

/// Drawings of small classes.
const SMALL: &str = "\
sample s 1/2 --fast --tape t | unlabelled;C = Z; |  | 0 | boltzmann fast;mode unlabelled;\
spec 3fc1e3549c38f4207a199b30944a2909a480fbf6137260039d89b5eaaf0170ff;x 1/2;fraction 48;\
window 0 1000;base C 140737488355584;object 1 at 0 size 1;text Z;cells;\
end done kept 1 thrown 0 bits 0 turns 2;
sample s 1/2 --fast --tape t | unlabelled;C = Z + Z; | \u{80} | 0 | boltzmann fast;\
mode unlabelled;spec 912b2203f35597570f0c2772d3efb0b59c614544f9d903c18ec3f84866edd780;x 1/2;\
fraction 48;window 0 1000;base C 281474976710912;object 1 at 0 size 1;text 1.Z;cells 1/1;\
end done kept 1 thrown 0 bits 1 turns 3;
sample s 3/16 --fast --tape t | unlabelled;B = E + Z*B*B; | \u{e4}\0 | 0 | boltzmann fast;\
mode unlabelled;spec abfb094417b1437541ff59d2464727b0f7e1f84b1ce3412ef8269aae68178dcb;x 3/16;\
fraction 48;window 0 1000;base B 398491573551104;object 1 at 0 size 1;text 1.(Z 0.E 0.E);\
cells 7/3 0/1 0/1;end done kept 1 thrown 0 bits 5 turns 10;";

#[test]
fn fast_drawings_of_small_classes(rt: HostRuntime) -> Result<(), Fail> {
    compare_table(&rt, SMALL)
}

/// A drawing with the option and without it, which end at one cell within other bounds.
const NEAR: &str = "\
sample s 249999/1000000 --tape t --fast | unlabelled;B = E + Z*B*B; | \
\u{80}A\u{89}7K\u{c6}\u{a7}\u{ef} | 6 | boltzmann fast;mode unlabelled;\
spec abfb094417b1437541ff59d2464727b0f7e1f84b1ce3412ef8269aae68178dcb;x 249999/1000000;\
fraction 48;window 0 1000;base B 562309861896779;\
undecided node 5 cell 577613673808030334/60 within 561826300792643 561826469650089;\
end undecided kept 0 thrown 0 bits 60 turns 2;
sample s 249999/1000000 --tape t | unlabelled;B = E + Z*B*B; | \
\u{80}A\u{89}7K\u{c6}\u{a7}\u{ef} | 6 | boltzmann 2;mode unlabelled;\
spec abfb094417b1437541ff59d2464727b0f7e1f84b1ce3412ef8269aae68178dcb;x 249999/1000000;\
fraction 48;window 0 1000;base B 562309861896779;\
undecided node 5 cell 577613673808030334/60 within 561825693332121 561826469650089;\
end undecided kept 0 thrown 0 bits 60 turns 2;";

#[test]
fn fast_bounds_are_nearer_close_to_the_singularity(rt: HostRuntime) -> Result<(), Fail> {
    compare_table(&rt, NEAR)
}

/// Drawings that have no base from below or none at all, and words that `--fast` does not suit.
const UNSUITED: &str = "\
sample s 1/2 --fast --tape t | unlabelled;C = Z + Z*Seq>=64(C); | \u{80} | 12 | \
refused fast candidates 48;
sample s 1/2 --fast --seed 1 --fraction 40 | unlabelled;C = Z + Z*Seq>=64(C); | \u{80} | 12 | \
refused fast candidates 40;
sample s 1/2 --fast --tape t --fast | unlabelled;C = Z + Z*Seq>=64(C); | \u{80} | 2 | \
refused words;
sample s 1/2 --tape --fast | unlabelled;C = Z + Z*Seq>=64(C); | \u{80} | 2 | refused words;
oracle s 1/2 --fast | unlabelled;C = Z + Z*Seq>=64(C); | \u{80} | 2 | refused words;
sample s 1/1 --fast --tape t | unlabelled;C = Z + Z*Seq>=64(C); | \u{80} | 4 | \
refused upper candidates 126 proposals 0;";

#[test]
fn no_fast_vector(rt: HostRuntime) -> Result<(), Fail> {
    compare_table(&rt, UNSUITED)
}
