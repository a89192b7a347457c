//! Objects that are counted, ranked, weighed and marked, by the commands `count`, `unrank`, `rank`,
//! `chance` and `point`.

use crate::whole::compare_table;
use std::test::Fail;

/// Counts, mostly of binary trees by nodes.
const COUNTS: &str = "\
count s 4 | unlabelled;B = E + Z*B*B; |  | 0 | size 0 1;size 1 1;size 2 2;size 3 5;size 4 14;\
end done;
count s 70 | unlabelled;B = E + Z*B*B; |  | 15 | refused rank too many node 2 size 70;
count s 501 | unlabelled;B = E + Z*B*B; |  | 2 | refused value n;
count s 1 | labelled;C = Set(Z); |  | 15 | refused rank labelled;
count s 1 | unlabelled;C = Z*Seq>=2(Z); |  | 15 | refused rank range node 2;
count s 1 | unlabelled;C = C; |  | 3 | refused spec no object C;
count t 1 | unlabelled;B = E + Z*B*B; |  | 3 | refused spec syntax line 1 column 1;";

#[test]
fn counts(rt: HostRuntime) -> Result<(), Fail> {
    compare_table(&rt, COUNTS)
}

/// Binary trees of ranks.
const UNRANKED: &str = "\
unrank s 0 0 | unlabelled;B = E + Z*B*B; |  | 0 | 0.E;end done;
unrank s 2 0 | unlabelled;B = E + Z*B*B; |  | 0 | 1.(Z 0.E 1.(Z 0.E 0.E));end done;
unrank s 2 1 | unlabelled;B = E + Z*B*B; |  | 0 | 1.(Z 1.(Z 0.E 0.E) 0.E);end done;
unrank s 2 2 | unlabelled;B = E + Z*B*B; |  | 15 | refused rank number;
unrank s 2 340282366920938463463374607431768211455 | unlabelled;B = E + Z*B*B; |  | 15 | \
refused rank number;
unrank s 2 340282366920938463463374607431768211456 | unlabelled;B = E + Z*B*B; |  | 2 | \
refused value rank;";

#[test]
fn objects_of_ranks(rt: HostRuntime) -> Result<(), Fail> {
    compare_table(&rt, UNRANKED)
}

/// Ranks, mostly of binary trees.
const RANKED: &str = "\
rank s t | unlabelled;B = E + Z*B*B; | 1.(Z 1.(Z 0.E 0.E) 0.E) | 0 | rank 1 of 2;end done;
rank s t | unlabelled;B = E + Z*B*B; | 0.E; | 0 | rank 0 of 1;end done;
rank s t | unlabelled;B = E + Z*B*B; | 0.E;; | 14 | refused object at 3;
rank s t | unlabelled;B = E + Z*B*B; | 1.(Z 0.E 2.E) | 14 | refused object at 9;
rank s t | labelled;C = Z; | Q | 15 | refused rank labelled;";

#[test]
fn ranks_of_objects(rt: HostRuntime) -> Result<(), Fail> {
    compare_table(&rt, RANKED)
}

/// Chances between two bounds, and objects that have none.
const CHANCES: &str = "\
chance s 1/2 t | unlabelled;C = Z + Z; | 1.Z; | 0 | \
chance lo 9223372036854775808 -64 hi 9223372036854775808 -64;end done;
chance s 1/2 t | labelled;C = Cyc=2(Z); | <Z#1 Z#2> | 0 | \
chance lo 9223372036854775808 -63 hi 9223372036854775808 -63;end done;
chance s 1/2 t | labelled;C = Cyc=2(Z); | <Z#2 Z#1> | 14 | refused object not canonical;
chance s 3/16 t --fraction 40 | unlabelled;B = E + Z*B*B; | 1.(Z 0.E 0.E); | 0 | \
chance lo 10376293541442748416 -66 hi 10376293541478137857 -66;end done;
chance s 1/1 t | unlabelled;B = E + Z*B*B; | 0.E | 4 | refused upper candidates 126 proposals 0;
chance s 1/1 t | unlabelled;B = E + Z*B*B; |  | 14 | refused object at 0;";

#[test]
fn chances_of_objects(rt: HostRuntime) -> Result<(), Fail> {
    compare_table(&rt, CHANCES)
}

/// Specifications that are pointed or refused.
const POINTED: &str = "\
point s | unlabelled;B = E + Z*B*B; |  | 0 | unlabelled;P0 = Z:mark*K0*K0 + Z*P0*K0 + Z*K0*P0;\
K0 = E + Z*K0*K0;end done classes 2 nodes 19;
point s | unlabelled;C = Seq(Z); |  | 0 | unlabelled;P0 = Seq(Z)*Z:mark*Seq(Z);K0 = Seq(Z);\
end done classes 2 nodes 8;
point s | unlabelled;C = E; |  | 13 | refused point no atom;
point s | labelled;C = Z; |  | 13 | refused point labelled;
point s | unlabelled;C = Z*Seq<=2(Z); |  | 13 | refused point range node 2;";

#[test]
fn pointed_specifications(rt: HostRuntime) -> Result<(), Fail> {
    compare_table(&rt, POINTED)
}
