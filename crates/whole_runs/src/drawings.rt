//! Drawings of one object, by the command `sample`.

use crate::whole::{compare, compare_table};
use std::test::Fail;

/// Words that are no command, over a specification and a tape.
const WORDS: &str = "\
spec | unlabelled;C = Z + Z; | \u{80} | 2 | refused words;
 | unlabelled;C = Z + Z; | \u{80} | 2 | refused words;
Spec s | unlabelled;C = Z + Z; | \u{80} | 2 | refused words;
spec  | unlabelled;C = Z + Z; | \u{80} | 2 | refused words;
spec -s | unlabelled;C = Z + Z; | \u{80} | 2 | refused words;
spec s t | unlabelled;C = Z + Z; | \u{80} | 2 | refused words;
sample s 1/2 | unlabelled;C = Z + Z; | \u{80} | 2 | refused words;
sample s 1/2 --tapes t | unlabelled;C = Z + Z; | \u{80} | 2 | refused words;
sample s 1/2 --tape -t | unlabelled;C = Z + Z; | \u{80} | 2 | refused words;
sample s 0/2 --tape t | unlabelled;C = Z + Z; | \u{80} | 2 | refused value x;
sample s 1 --tape t | unlabelled;C = Z + Z; | \u{80} | 2 | refused value x;
sample s 1/1000001 --tape t | unlabelled;C = Z + Z; | \u{80} | 2 | refused value x;
sample s 1/2 --seed 01 | unlabelled;C = Z + Z; | \u{80} | 2 | refused value seed;
sample s 1/2 --tape t --min 9 --max 8 | unlabelled;C = Z + Z; | \u{80} | 2 | refused value min;
oracle s 1/2 --fraction 47 | unlabelled;C = Z + Z; | \u{80} | 2 | refused value fraction;
pool s 1/2 s | unlabelled;C = Z + Z; | \u{80} | 2 | refused words;
bulk 0 | unlabelled;C = Z + Z; | \u{80} | 2 | refused value n;
bulk 1001 | unlabelled;C = Z + Z; | \u{80} | 2 | refused value n;
bulk 1 --fraction 47 | unlabelled;C = Z + Z; | \u{80} | 2 | refused value fraction;";

#[test]
fn words_that_are_refused(rt: HostRuntime) -> Result<(), Fail> {
    compare_table(&rt, WORDS)
}

/// Certificates of the first form and of the second one, and texts that are none.
const CERTIFICATES: &str = "\
verify s t | unlabelled;C = Z + Z; | boltzmann 1;mode unlabelled;x 1/2;fraction 48;window 0 1000;\
base C 281474976710912;object 1 at 0 size 1;text 1.Z;cells 1/1;\
end done kept 1 thrown 0 bits 1 turns 3; | 0 | end valid entries 1;
verify s t | unlabelled;C = Z + Z; | boltzmann 2;mode unlabelled;\
spec 912b2203f35597570f0c2772d3efb0b59c614544f9d903c18ec3f84866edd780;x 1/2;fraction 48;\
window 0 1000;base C 281474976710912;object 1 at 0 size 1;text 1.Z;cells 1/1;\
end done kept 1 thrown 0 bits 1 turns 3; | 0 | end valid entries 1;
migrate s t | unlabelled;C = Z + Z; | boltzmann 1;mode unlabelled;x 1/2;fraction 48;window 0 1000;\
base C 281474976710912;object 1 at 0 size 1;text 1.Z;cells 1/1;\
end done kept 1 thrown 0 bits 1 turns 3; | 0 | boltzmann 2;mode unlabelled;\
spec 912b2203f35597570f0c2772d3efb0b59c614544f9d903c18ec3f84866edd780;x 1/2;fraction 48;\
window 0 1000;base C 281474976710912;object 1 at 0 size 1;text 1.Z;cells 1/1;\
end done kept 1 thrown 0 bits 1 turns 3;
migrate s t | unlabelled;C = Z + Z; | boltzmann 2;mode unlabelled;\
spec 912b2203f35597570f0c2772d3efb0b59c614544f9d903c18ec3f84866edd780;x 1/2;fraction 48;\
window 0 1000;base C 281474976710912;object 1 at 0 size 1;text 1.Z;cells 1/1;\
end done kept 1 thrown 0 bits 1 turns 3; | 0 | boltzmann 2;mode unlabelled;\
spec 912b2203f35597570f0c2772d3efb0b59c614544f9d903c18ec3f84866edd780;x 1/2;fraction 48;\
window 0 1000;base C 281474976710912;object 1 at 0 size 1;text 1.Z;cells 1/1;\
end done kept 1 thrown 0 bits 1 turns 3;
verify s t | unlabelled;C = Z + Z + Z; | boltzmann 1;mode unlabelled;x 1/2;fraction 48;\
window 0 1000;base C 281474976710912;object 1 at 0 size 1;text 1.Z;cells 1/1;\
end done kept 1 thrown 0 bits 1 turns 3; | 11 | invalid line 6 base;
verify s t | unlabelled;C = Z + Z + Z; | boltzmann 2;mode unlabelled;\
spec 912b2203f35597570f0c2772d3efb0b59c614544f9d903c18ec3f84866edd780;x 1/2;fraction 48;\
window 0 1000;base C 281474976710912;object 1 at 0 size 1;text 1.Z;cells 1/1;\
end done kept 1 thrown 0 bits 1 turns 3; | 11 | invalid line 3 spec;
migrate s t | unlabelled;C = Z + Z + Z; | boltzmann 2;mode unlabelled;\
spec 912b2203f35597570f0c2772d3efb0b59c614544f9d903c18ec3f84866edd780;x 1/2;fraction 48;\
window 0 1000;base C 281474976710912;object 1 at 0 size 1;text 1.Z;cells 1/1;\
end done kept 1 thrown 0 bits 1 turns 3; | 11 | invalid line 3 spec;
verify s t | unlabelled;C = Z + Z; | unlabelled;C = Z + Z; | 11 | refused certificate line 1;
migrate s t | unlabelled;C = Z + Z; |  | 11 | refused certificate line 1;
verify s c | unlabelled;C = Z + Z; | boltzmann 2;mode unlabelled;\
spec 912b2203f35597570f0c2772d3efb0b59c614544f9d903c18ec3f84866edd780;x 1/2;fraction 48;\
window 0 1000;base C 281474976710912;object 1 at 0 size 1;text 1.Z;cells 1/1;\
end done kept 1 thrown 0 bits 1 turns 3; | 8 | refused read;";

#[test]
fn a_certificate_is_tested_and_migrated(rt: HostRuntime) -> Result<(), Fail> {
    compare_table(&rt, CERTIFICATES)
}

/// Runs by number.
const NUMBERED: &str = "\
bulk 1 |  |  | 0 | bulk 1 classes 3 end done kept 100 thrown 0 atoms 44 bits 486 turns 608;
bulk 3 --fraction 48 |  |  | 0 | \
bulk 3 classes 5 end done kept 300 thrown 0 atoms 166 bits 1652 turns 2062;";

#[test]
fn a_run_that_a_number_names(rt: HostRuntime) -> Result<(), Fail> {
    compare_table(&rt, NUMBERED)
}

/// Drawings without labels.
const UNLABELLED: &str = "\
sample s 1/2 --tape t | unlabelled;C = Z + Z; | \u{80} | 0 | boltzmann 2;mode unlabelled;\
spec 912b2203f35597570f0c2772d3efb0b59c614544f9d903c18ec3f84866edd780;x 1/2;fraction 48;\
window 0 1000;base C 281474976710912;object 1 at 0 size 1;text 1.Z;cells 1/1;\
end done kept 1 thrown 0 bits 1 turns 3;
sample s 1/2 --tape t | unlabelled;C = Z + Z; |  | 5 | boltzmann 2;mode unlabelled;\
spec 912b2203f35597570f0c2772d3efb0b59c614544f9d903c18ec3f84866edd780;x 1/2;fraction 48;\
window 0 1000;base C 281474976710912;end tape-ended kept 0 thrown 0 bits 0 turns 2;
sample s 1/1 --tape t | unlabelled;A = B*B;B = E + Z; | @ | 0 | boltzmann 2;mode unlabelled;\
spec 15888b34132ae6303b890110811b136b771aa38b66d784e631f98e5ed1cf75f3;x 1/1;fraction 48;\
window 0 1000;base A 1125899906843904;base B 562949953421568;object 1 at 0 size 1;text (0.E 1.Z);\
cells 0/1 1/1;end done kept 1 thrown 0 bits 2 turns 8;
sample s 1/3 --tape t | unlabelled;C = Z + E; | @\0\0\0\0\0\0 | 5 | boltzmann 2;mode unlabelled;\
spec 9b244c1564999c0d6ca9292b3c92165eca564ef334302891f09c0214756fb238;x 1/3;fraction 48;\
window 0 1000;base C 375299968947797;end tape-ended kept 0 thrown 0 bits 56 turns 2;
sample s 1/3 --tape t | unlabelled;C = Z + E; | @\0\0\0\0\0\0\0 | 6 | boltzmann 2;mode unlabelled;\
spec 9b244c1564999c0d6ca9292b3c92165eca564ef334302891f09c0214756fb238;x 1/3;fraction 48;\
window 0 1000;base C 375299968947797;\
undecided node 2 cell 288230376151711744/60 within 375299968947541 375299968947542;\
end undecided kept 0 thrown 0 bits 60 turns 2;
sample s 1/2 --tape t | unlabelled;C = E; |  | 0 | boltzmann 2;mode unlabelled;\
spec 87a142c6376f8ad4b0334222b528e21b491ef75e0ab28e79a52ff07b83179b42;x 1/2;fraction 48;\
window 0 1000;base C 281474976710912;object 1 at 0 size 0;text E;cells;\
end done kept 1 thrown 0 bits 0 turns 2;
sample s 3/2 --tape t | unlabelled;C = Z + Z; | \u{80} | 0 | boltzmann 2;mode unlabelled;\
spec 912b2203f35597570f0c2772d3efb0b59c614544f9d903c18ec3f84866edd780;x 3/2;fraction 48;\
window 0 1000;base C 844424930132224;object 1 at 0 size 1;text 1.Z;cells 1/1;\
end done kept 1 thrown 0 bits 1 turns 3;
sample s 3/16 --tape t | unlabelled;B = E + Z*B*B; | \u{e4}\0 | 0 | boltzmann 2;mode unlabelled;\
spec abfb094417b1437541ff59d2464727b0f7e1f84b1ce3412ef8269aae68178dcb;x 3/16;fraction 48;\
window 0 1000;base B 398491573551104;object 1 at 0 size 1;text 1.(Z 0.E 0.E);cells 7/3 0/1 0/1;\
end done kept 1 thrown 0 bits 5 turns 10;
sample s 1/2 --tape t | unlabelled;C = Seq(Z); | \u{b0} | 0 | boltzmann 2;mode unlabelled;\
spec cf0e7746b154aa307657d6137933fa6e6ba503ec395fe97d7ebe365ded2ffde2;x 1/2;fraction 48;\
window 0 1000;base C 562949953421567;object 1 at 0 size 1;text [Z];cells 5/3;\
end done kept 1 thrown 0 bits 3 turns 3;
sample s 1/4 --tape t | unlabelled;C = Z:a*Seq<=2(Z:b); | \u{e0} | 0 | boltzmann 2;\
mode unlabelled;spec 7bcd83d7389604cb2097861bbd6d0897359c60c9356e2aaccfb7223ecc846c2f;x 1/4;\
fraction 48;window 0 1000;base C 92358976733440;object 1 at 0 size 2;text (a [b]);cells 14/4;\
end done kept 1 thrown 0 bits 4 turns 5;";

#[test]
fn objects_and_endings(rt: HostRuntime) -> Result<(), Fail> {
    compare_table(&rt, UNLABELLED)
}

/// Drawings with labels.
const LABELLED: &str = "\
sample s 9/25 --tape t | labelled;T = Z*Set(T); | \u{c9}\u{d3}\u{e1}\u{f0}\u{aa}Z\u{17}\u{c3} | \
0 | boltzmann 2;mode labelled;\
spec 29a47b287dffb6b7af67ca04825edeb8e2af387858a1c055e9f7d2bdd9c08753;x 9/25;fraction 48;\
window 0 1000;base T 229536619891989;object 1 at 0 size 6;\
text (Z#5 {(Z#1 {(Z#6 {(Z#2 {}) (Z#4 {(Z#3 {})})})})});\
cells 1614/11 9/4 1927/11 1557/11 2/3 2/3 52/6 2/4 3/2 3/2 1/1;\
end done kept 1 thrown 0 bits 58 turns 25;
sample s 1/1 --tape t | labelled;C = Z*Z*Z; | UUUUUUUUU | 6 | boltzmann 2;mode labelled;\
spec 9d0c1e2d4938e771adb3253f2bf0c66499eb0b97bd1e401547e7b5e4fbf2f251;x 1/1;fraction 48;\
window 0 1000;base C 281474976710912;undecided label 3 cell 384307168202282325/60;\
end undecided kept 0 thrown 0 bits 60 turns 6;";

#[test]
fn labelled_objects_and_endings(rt: HostRuntime) -> Result<(), Fail> {
    compare_table(&rt, LABELLED)
}

#[test]
fn a_drawing_without_a_base(rt: HostRuntime) -> Result<(), Fail> {
    let text = "unlabelled\nB = E + Z*B*B\n";
    let want = "refused upper candidates 126 proposals 0\n";
    compare(&rt, "sample s 3/10 --tape t", text, b"\x80", 4, want)?;
    Ok(())
}
