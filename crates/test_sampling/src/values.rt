//! Values of whole specifications, of an independent program.
//!
//! In the table a line is a specification, where `;` stands for the end of a line; a fraction; a
//! post-fixed vector; and what is observed, where `/` stands for the end of a line.

use crate::observed::{first_entry, observe};
use crate::runs::{cut, fraction_of, numbers_of, specification};
use bz_model::fraction::Fraction;
use std::alloc::Global;
use std::marker::Brand;
use std::sync::ledger::Blank;
use std::test::Fail;
use well_founded::examination::Founded;

const VALUES: &str = "\
unlabelled;B = E + Z*B*B; @ 3/16 @ 398491573551104 @ classes [365849822101504] / lower [281474976710656, 52776558133248, 365849822101504, 365849822101504, 89159408077656, 370634384788312] / upper [281474976710656, 52776558133248, 365849822101504, 365849822101504, 89159408077657, 370634384788313] / above Some(370634384788313) / dual true [256] / dual true [382] / dual true [444] / dual true [475] / post-fixed / swept [387254051670713]
unlabelled;B = E + Z*B*B; @ 2499/10000 @ 551960998572867 @ classes [417459501455301] / lower [281474976710656, 70340596679992, 417459501455301, 417459501455301, 154723102224675, 436198078935331] / upper [281474976710656, 70340596679993, 417459501455301, 417459501455301, 154723102224679, 436198078935335] / above Some(436198078935335) / dual true [256] / dual true [446] / dual true [589] / dual true [695] / post-fixed / swept [551960015138275]
unlabelled;C = Seq(Z); @ 99/100 @ 28147497671077583 @ classes [28147497671061199] / lower [278660226943549, 28147497671061199] / upper [278660226943550, 28147497671071201] / above Some(28147497671071201) / dual true [256] / dual true [256] / dual true [256] / dual true [256] / post-fixed / swept [28147497671071201]
labelled;T = Z*Set(T); @ 367/1000 @ 280830520907998 @ classes [192671777299146] / lower [103301316452810, 192671777299146, 558107284303942, 204825373339545] / upper [103301316452811, 192671777299146, 558107284304074, 204825373339596] / above Some(204825373339596) / dual true [256] / dual true [443] / dual true [579] / dual true [678] / post-fixed / swept [280159911620290]
unlabelled;A = Z + Z*Seq>=2(A);B = Seq<=3(A);C = Seq=4(B); @ 1/5 @ 59482661568684 356184192251484 721737364195056 @ classes [59477180333553, 356113964796938, 717050356706571] / lower [56294995342131, 56294995342131, 59477180333553, 15935000428655, 3187000085730, 59481995427861, 59477180333553, 356175660201684, 356113964796938, 721168323897905] / upper [56294995342132, 56294995342132, 59477180333553, 15935000428657, 3187000085732, 59481995427864, 59477180333553, 356175660201686, 356113964796938, 721168323897908] / above Some(59481995427864) / dual true [256, 256, 256] / dual true [339, 655, 2330] / dual true [366, 784, 5562] / dual true [374, 826, 6607] / post-fixed / swept [59482661568355, 356184192251229, 721737364194853]
labelled;A = Z + Z*Set>=1(A);B = Set<=3(A);C = Set=4(B); @ 1/5 @ 78598325596510 375261029330512 39699629863364 @ classes [72671270728030, 363303840378448, 31144055009732] / lower [56294995342131, 56294995342131, 72671270728030, 82914675618404, 16582935123680, 72877930465811, 72671270728030, 364334731464421, 363303840378448, 32549875923252] / upper [56294995342132, 56294995342132, 72671270728030, 82914675618533, 16582935123707, 72877930465839, 72671270728030, 364334731464423, 363303840378448, 32549875923253] / above Some(72877930465839) / dual true [256, 256, 256] / dual true [323, 587, 348] / dual true [340, 674, 467] / dual true [345, 696, 498] / post-fixed / swept [74428801583994, 372068527279140, 37051282441389]
labelled;A = Z + Z*Cyc>=2(A);B = Cyc<=3(A);C = Cyc=4(B); @ 1/5 @ 57690237881706 64422703487974 209286158278 @ classes [57667353759082, 64377270787046, 191569418182] / lower [56294995342131, 56294995342131, 57667353759082, 6862668903097, 1372533780619, 57667529122750, 57667353759082, 64381513871716, 64377270787046, 192553260986] / upper [56294995342132, 56294995342132, 57667353759082, 6862668903119, 1372533780624, 57667529122756, 57667353759082, 64381513871718, 64377270787046, 192553260987] / above Some(57667529122756) / dual true [256, 256, 256] / dual true [321, 576, 260] / dual true [337, 657, 263] / dual true [341, 677, 264] / post-fixed / swept [57668708703781, 64410048242476, 193097395880]";

/// What is observed of a line of the table but for what is wanted.
fn observe_line(alloc: Global, text: &str, x: &str, post_fixed: &str) -> Result<String, Fail> {
    let x = fraction_of(x)?;
    let founded = specification(alloc, text)?;
    observe_text(alloc, &founded, x, post_fixed)
}

/// What is observed, where the vector is handed over as it is written.
fn observe_text(
    alloc: Global,
    founded: &Founded,
    x: Fraction,
    post_fixed: &str,
) -> Result<String, Fail> {
    let post_fixed = numbers_of(alloc, post_fixed)?;
    observe::<Brand>(alloc, founded.system(), x, &post_fixed, Blank::new(1))
}

#[test]
fn values_are_those_of_an_independent_program(rt: HostRuntime) -> Result<(), Fail> {
    for line in VALUES.lines() {
        let (text, rest) = cut(line)?;
        let (x, rest) = cut(rest)?;
        let (post_fixed, want) = cut(rest)?;
        let got = observe_line(rt.alloc(), text, x, post_fixed)?;
        assert_eq!(rt; got.as_str(), want);
    }
    Ok(())
}

/// The base's entry of the class `C = Z`, at 52 fraction bits.
fn entry_of_atom(alloc: Global, x: &str) -> Result<Option<u64>, Fail> {
    let x = fraction_of(x)?;
    let founded = specification(alloc, "unlabelled;C = Z;")?;
    Ok(first_entry::<Brand>(alloc, &founded, x, Blank::new(1)))
}

#[test]
fn the_greatest_atom_at_52_bits(rt: HostRuntime) -> Result<(), Fail> {
    for (x, want) in [
        ("4095/1", Some(18_442_240_474_082_181_376)),
        ("4096/1", None),
    ] {
        assert_eq!(rt; entry_of_atom(rt.alloc(), x)?, want);
    }
    Ok(())
}
