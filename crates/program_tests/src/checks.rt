//! Code checks, from text to report. The forces follow from statics, and the stresses were worked out by hand from the standard's
//! formulas (ASME B31.3-2016, 302.3.5, 302.3.6, 319.4.4, 320.2; `docs/VALIDATION.md`); the displacements and the line of the loop are those
//! of a frame computation of 50 digits that shares nothing with the program.
use crate::runs::{answers, report_of};
use flex_io::Status;
use std::alloc::{AllocError, Global};
use std::process::Abort;
use std::test::Fail;

// A cantilever of 1 m with 1 kN at its end: 1 kN m over a section modulus of 57,962 mm^3 is 17.25 MPa.
const TIP: &str = "\
pipeflex 1
material st 200000 300 12000 7850
section s st 100000 10000 0 0
node a 0 0 0
node b 1000000 0 0
straight p a b s
anchor A a - -
case tip 0 0 0 0 0 0
force tip b 0 0 -1000000 0 0 0
check sus sustained tip 137900
";

// Its report.
const TIP_REPORT: &str = "\
pipeflex report 1
model 2 1 1 1 1
case tip certified
node a -1 1 -1 1 -101 -99 -1 1 99 101 -1 1
node b -1 1 -1 1 -575286 -575285 -1 1 862728 862729 -1 1
restraint A -1 1 -1 1 -1000001 -999999 -1 1 999999 1000001 -1 1
check sus sustained
station p from 17252 17253 137900 137900 pass
station p to 0 1 137900 137900 pass
result 2 0 0 0
end
";

// A pipe between anchors, 100 K hotter: 609.6 kN over 2,827 mm^2 is 215.6 MPa, over 1.25 SC + 0.25 SH.
const HOT: &str = "\
pipeflex 1
material st 200000 300 12000 7850
section s st 100000 10000 0 0
node a 0 0 0
node b 1000000 0 0
straight p a b s
anchor A a - -
anchor B b - -
case rest 0 0 0 0 0 0
case hot 0 0 0 0 100000 0
check ex expansion hot rest 137900 130000 7000 1000 -
";

// Its report.
const HOT_REPORT: &str = "\
pipeflex report 1
model 2 1 2 2 1
case rest certified
node a 0 0 0 0 0 0 0 0 0 0 0 0
node b 0 0 0 0 0 0 0 0 0 0 0 0
restraint A 0 0 0 0 0 0 0 0 0 0 0 0
restraint B 0 0 0 0 0 0 0 0 0 0 0 0
case hot certified
node a -60964 -60963 -1 1 -1 1 -1 1 -1 1 -1 1
node b 60963 60964 -1 1 -1 1 -1 1 -1 1 -1 1
restraint A -609635826 -609635825 -1 1 -1 1 -1 1 -1 1 -1 1
restraint B 609635825 609635826 -1 1 -1 1 -1 1 -1 1 -1 1
check ex expansion
station p from 215614 215615 204875 204875 fail
station p to 215614 215615 204875 204875 fail
result 0 2 0 0
end
";

// An elbow with moments in and out of its plane, and torsion; over 7,000 and over 10^6 cycles.
const ELBOW: &str = "\
pipeflex 1
material A106B 203400 300 11500 7850
section pipe6 A106B 168300 7110 0 0
node a 0 0 0
node b 2000000 0 0
node c 2229000 229000 0
node d 2229000 1229000 0
straight p a b pipe6
bend e b c pipe6 229000 90000 2229000 0 0
straight q c d pipe6
anchor A a - -
case push 0 0 0 0 0 0
force push d 3000000 0 -2000000 0 0 0
case rest 0 0 0 0 0 0
check range expansion push rest 137900 130000 7000 1200 -
check often expansion push rest 137900 130000 1000000 1200 -
";

// Its report.
const ELBOW_REPORT: &str = "\
pipeflex report 1
model 4 3 1 2 2
case push certified
node a 299 301 -1 1 -201 -199 -246 -245 445 446 -369 -368
node b 8492 8493 -3095051 -3095050 -2623467 -2623466 -2681984 -2681983 2063321 2063322 -3094682 -3094681
node c 1230628 1230629 -4101065 -4101064 -3940374 -3940373 -4045272 -4045271 2786200 2786201 -6510041 -6510040
node d 8160293 8160294 -4101065 -4101064 -8265395 -8265394 -4464897 -4464896 2786200 2786201 -7139478 -7139477
restraint A 2999999 3000001 -1 1 -2000001 -1999999 -2458001 -2457999 4457999 4458001 -3687001 -3686999
case rest certified
node a 0 0 0 0 0 0 0 0 0 0 0 0
node b 0 0 0 0 0 0 0 0 0 0 0 0
node c 0 0 0 0 0 0 0 0 0 0 0 0
node d 0 0 0 0 0 0 0 0 0 0 0 0
restraint A 0 0 0 0 0 0 0 0 0 0 0 0
check range expansion
station p from 45913 45914 209228 209229 pass
station p to 32694 32695 209228 209229 pass
station e from 63602 63603 209228 209229 pass
station e to 55801 55802 209228 209229 pass
station q from 25896 25897 209228 209229 pass
station q to 0 1 209228 209229 pass
result 6 0 0 0
check often expansion
station p from 45913 45914 77560 77561 pass
station p to 32694 32695 77560 77561 pass
station e from 63602 63603 77560 77561 pass
station e to 55801 55802 77560 77561 pass
station q from 25896 25897 77560 77561 pass
station q to 0 1 77560 77561 pass
result 6 0 0 0
end
";

// A branch on a header with a pad: by the reduced wall and three quarters of the factors, and as a range with the liberal allowable.
const TEE: &str = "\
pipeflex 1
material A106B 203400 300 11500 7850
section pipe6 A106B 168300 7110 1500 0
section pipe3 A106B 88900 5490 1500 0
node a 0 0 0
node t 2000000 0 0
node b 4000000 0 0
node d 2000000 0 1500000
straight west a t pipe6
straight east t b pipe6
straight branch t d pipe3
tee t branch pipe6 pad 7110
anchor A a - -
case push 0 0 0 0 0 2000000
force push d 1000000 500000 0 0 0 0
case rest 0 0 0 0 0 0
check sus sustained push 137900
check occ occasional push 137900 -
check range expansion push rest 137900 130000 7000 1000 sus
";

// Its report.
const TEE_REPORT: &str = "\
pipeflex report 1
model 4 3 1 2 3
case push certified
node a 99 101 49 51 -1 1 -76 -74 149 151 99 101
node t 43568 43569 559749 559750 -1259175 -1259174 -818344 -818343 1259024 1259025 419724 419725
node b 84305 84306 1399199 1399200 -3777223 -3777222 -818344 -818343 1259024 1259025 419724 419725
node d 6333978 6333979 3988201 3988202 -1239619 -1239618 -3019281 -3019280 5660898 5660899 419724 419725
restraint A 999999 1000001 499999 500001 -1 1 -750001 -749999 1499999 1500001 999999 1000001
case rest certified
node a 0 0 0 0 0 0 0 0 0 0 0 0
node t 0 0 0 0 0 0 0 0 0 0 0 0
node b 0 0 0 0 0 0 0 0 0 0 0 0
node d 0 0 0 0 0 0 0 0 0 0 0 0
restraint A 0 0 0 0 0 0 0 0 0 0 0 0
check sus sustained
station west from 30569 30570 137900 137900 pass
station west to 34280 34281 137900 137900 pass
station east from 13517 13518 137900 137900 pass
station east to 13517 13518 137900 137900 pass
station branch from 129041 129042 137900 137900 pass
station branch to 9663 9664 137900 137900 pass
result 6 0 0 0
check occ occasional
station west from 30569 30570 183407 183407 pass
station west to 34280 34281 183407 183407 pass
station east from 13517 13518 183407 183407 pass
station east to 13517 13518 183407 183407 pass
station branch from 129041 129042 183407 183407 pass
station branch to 9663 9664 183407 183407 pass
result 6 0 0 0
check range expansion
station west from 14280 14281 304305 304306 pass
station west to 22301 22302 300594 300595 pass
station east from 0 1 321357 321358 pass
station east to 0 1 321357 321358 pass
station branch from 121776 121777 205833 205834 pass
station branch to 0 1 325211 325212 pass
result 6 0 0 0
end
";

// A straight under 20 kN m of bending and 10 kN m of torsion.
const TORSION: &str = "\
pipeflex 1
material A106B 203400 300 11500 7850
section pipe6 A106B 168300 7110 0 0
node a 0 0 0
node b 2000000 0 0
node c 2000000 1000000 0
straight p a b pipe6
straight q b c pipe6
anchor A a - -
case load 0 0 0 0 0 0
force load c 0 0 -10000000 0 0 0
check sus sustained load 137900
";

// Its report.
const TORSION_REPORT: &str = "\
pipeflex report 1
model 3 2 1 1 1
case load certified
node a -1 1 -1 1 -1001 -999 -1001 -999 1999 2001 -1 1
node b -1 1 -1 1 -11194994 -11194993 -10911245 -10911244 8394495 8394496 -1 1
node c -1 1 -1 1 -23504988 -23504987 -13009368 -13009367 8394495 8394496 -1 1
restraint A -1 1 -1 1 -10000001 -9999999 -10000001 -9999999 19999999 20000001 -1 1
check sus sustained
station p from 160602 160603 137900 137900 fail
station p to 71823 71824 137900 137900 pass
station q from 71823 71824 137900 137900 pass
station q to 0 1 137900 137900 pass
result 3 1 0 0
end
";

// A line with an expansion loop on six rests and a hanger: 64 stations.
const LINE: &str = "\
pipeflex 1
material st 203400 300 11500 7850
section s st 168300 7110 1500 150000
node A 0 0 0
node r1 3000000 0 0
node p1 5771000 0 0
node p2 6000000 229000 0
node r2 6000000 1500000 0
node p3 6000000 2771000 0
node p4 6229000 3000000 0
node r3 7500000 3000000 0
node p5 8771000 3000000 0
node p6 9000000 2771000 0
node r4 9000000 1500000 0
node p7 9000000 229000 0
node p8 9229000 0 0
node h 10500000 0 0
node r5 12000000 0 0
node r6 13500000 0 0
node B 15000000 0 0
straight s1 A r1 s
straight s2 r1 p1 s
bend b1 p1 p2 s 229000 90000 6000000 0 0
straight s3 p2 r2 s
straight s4 r2 p3 s
bend b2 p3 p4 s 229000 90000 6000000 3000000 0
straight s5 p4 r3 s
straight s6 r3 p5 s
bend b3 p5 p6 s 229000 90000 9000000 3000000 0
straight s7 p6 r4 s
straight s8 r4 p7 s
bend b4 p7 p8 s 229000 90000 9000000 0 0
straight s9 p8 h s
straight s10 h r5 s
straight s11 r5 r6 s
straight s12 r6 B s
anchor An A - -
anchor Bn B - -
oneway q1 r1 0 0 -1 0 100000000
oneway q2 r2 0 0 -1 0 100000000
oneway q3 r3 0 0 -1 0 100000000
oneway q4 r4 0 0 -1 0 100000000
oneway q5 r5 0 0 -1 0 100000000
oneway q6 r6 0 0 -1 0 100000000
hanger hg h 20000 500000
case w 0 0 -1000 1 0 2000000
case op 0 0 -1000 1 200000 2000000
check sus sustained w 137900
check ex expansion op w 137900 130000 7000 1000 sus
";

// Its report.
const LINE_REPORT: &str = "\
pipeflex report 1
model 17 16 9 2 2
case w certified
node A -2 -1 -1 1 -46 -45 13 14 14 15 1 2
node r1 61041 61042 29985 29986 -16965 -16964 217227 217228 126181 126182 19988 19989
node p1 117424 117425 110952 110953 -626446 -626445 417860 417861 162649 162650 38450 38451
node p2 111090 111091 125696 125697 -553580 -553579 476721 476722 111951 111952 52949 52950
node r2 41824 41825 151584 151585 -18893 -18892 281527 281528 114476 114477 54300 54301
node p3 -22509 -22508 177473 177474 144119 144120 43980 43981 117001 117002 45187 45188
node p4 -25862 -25861 188331 188332 118956 118957 -2483 -2482 120063 120064 16229 16230
node r3 -1 1 198645 198646 -7355 -7354 -40417 -40416 88400 88401 -1 1
node p5 25861 25862 188331 188332 -102778 -102777 -78350 -78349 49705 49706 -16230 -16229
node p6 22508 22509 177473 177474 -86456 -86455 -105908 -105907 7511 7512 -45188 -45187
node r4 -41825 -41824 151584 151585 -17286 -17285 63716 63717 -11539 -11538 -54301 -54300
node p7 -111091 -111090 125696 125697 -247608 -247607 231415 231416 -30588 -30587 -52950 -52949
node p8 -117425 -117424 110952 110953 -286518 -286517 199069 199070 -75226 -75225 -38451 -38450
node h -91563 -91562 67463 67464 -157402 -157401 155227 155228 -116540 -116539 -29983 -29982
node r5 -61042 -61041 29985 29986 -10416 -10415 103487 103488 -49599 -49598 -19989 -19988
node r6 -30520 -30519 7497 7498 -3543 -3542 51746 51747 7215 7216 -9996 -9995
node B 1 2 -1 1 -40 -39 6 7 -13 -12 -2 -1
restraint An -15436 -15435 -1 1 -458186 -458185 132727 132728 146744 146745 15877 15878
restraint Bn 15435 15436 -1 1 -395827 -395826 63231 63232 -125198 -125197 -15878 -15877
restraint q1 closed 1696486 1696487
restraint q2 closed 1889290 1889291
restraint q3 closed 735467 735468
restraint q4 closed 1728524 1728525
restraint q5 closed 1041518 1041519
restraint q6 closed 354202 354203
restraint hg -3149 -3148
case op certified
node A -176 -175 -1 1 -46 -45 13 14 14 15 180 181
node r1 6953727 6953728 3415892 3415893 -16965 -16964 217227 217228 126181 126182 2277080 2277081
node p1 13376815 13376816 12639523 12639524 -626446 -626445 417860 417861 162649 162650 4380177 4380178
node p2 12655212 12655213 14319088 14319089 -553580 -553579 476721 476722 111951 111952 6031895 6031896
node r2 4764620 4764621 17268277 17268278 -18893 -18892 281527 281528 114476 114477 6185794 6185795
node p3 -2564079 -2564078 20217465 20217466 144119 144120 43980 43981 117001 117002 5147721 5147722
node p4 -2946137 -2946136 21454418 21454419 118956 118957 -2483 -2482 120063 120064 1848819 1848820
node r3 -1 1 22629343 22629344 -7355 -7354 -40417 -40416 88400 88401 -1 1
node p5 2946136 2946137 21454418 21454419 -102778 -102777 -78350 -78349 49705 49706 -1848820 -1848819
node p6 2564078 2564079 20217465 20217466 -86456 -86455 -105908 -105907 7511 7512 -5147722 -5147721
node r4 -4764621 -4764620 17268277 17268278 -17286 -17285 63716 63717 -11539 -11538 -6185795 -6185794
node p7 -12655213 -12655212 14319088 14319089 -247608 -247607 231415 231416 -30588 -30587 -6031896 -6031895
node p8 -13376816 -13376815 12639523 12639524 -286518 -286517 199069 199070 -75226 -75225 -4380178 -4380177
node h -10430679 -10430678 7685351 7685352 -157402 -157401 155227 155228 -116540 -116539 -3415531 -3415530
node r5 -6953728 -6953727 3415892 3415893 -10416 -10415 103487 103488 -49599 -49598 -2277081 -2277080
node r6 -3476776 -3476775 854108 854109 -3543 -3542 51746 51747 7215 7216 -1138631 -1138630
node B 175 176 -1 1 -40 -39 6 7 -13 -12 -181 -180
restraint An -1758385 -1758384 -1 1 -458186 -458185 132727 132728 146744 146745 1808679 1808680
restraint Bn 1758384 1758385 -1 1 -395827 -395826 63231 63232 -125198 -125197 -1808680 -1808679
restraint q1 closed 1696486 1696487
restraint q2 closed 1889290 1889291
restraint q3 closed 735467 735468
restraint q4 closed 1728524 1728525
restraint q5 closed 1041518 1041519
restraint q6 closed 354202 354203
restraint hg -3149 -3148
check sus sustained
station s1 from 14876 14877 137900 137900 pass
station s1 to 19712 19713 137900 137900 pass
station s2 from 19712 19713 137900 137900 pass
station s2 to 14337 14338 137900 137900 pass
station b1 from 14662 14663 137900 137900 pass
station b1 to 14099 14100 137900 137900 pass
station s3 from 13922 13923 137900 137900 pass
station s3 to 21411 21412 137900 137900 pass
station s4 from 21411 21412 137900 137900 pass
station s4 to 14561 14562 137900 137900 pass
station b2 from 15012 15013 137900 137900 pass
station b2 to 14373 14374 137900 137900 pass
station s5 from 14099 14100 137900 137900 pass
station s5 to 14070 14071 137900 137900 pass
station s6 from 14070 14071 137900 137900 pass
station s6 to 14312 14313 137900 137900 pass
station b3 from 14665 14666 137900 137900 pass
station b3 to 13924 13925 137900 137900 pass
station s7 from 13757 13758 137900 137900 pass
station s7 to 20168 20169 137900 137900 pass
station s8 from 20168 20169 137900 137900 pass
station s8 to 13643 13644 137900 137900 pass
station b4 from 13722 13723 137900 137900 pass
station b4 to 14614 14615 137900 137900 pass
station s9 from 14292 14293 137900 137900 pass
station s9 to 13950 13951 137900 137900 pass
station s10 from 13950 13951 137900 137900 pass
station s10 to 16447 16448 137900 137900 pass
station s11 from 16447 16448 137900 137900 pass
station s11 to 13710 13711 137900 137900 pass
station s12 from 13710 13711 137900 137900 pass
station s12 to 14651 14652 137900 137900 pass
result 32 0 0 0
check ex expansion
station s1 from 13360 13361 319998 319999 pass
station s1 to 13360 13361 315162 315163 pass
station s2 from 13360 13361 315162 315163 pass
station s2 to 13360 13361 320537 320538 pass
station b1 from 29634 29635 320212 320213 pass
station b1 to 22660 22661 320775 320776 pass
station s3 from 10009 10010 320952 320953 pass
station s3 to 5901 5902 313463 313464 pass
station s4 from 5901 5902 313463 313464 pass
station s4 to 21812 21813 320313 320314 pass
station b2 from 49379 49380 319862 319863 pass
station b2 to 56353 56354 320501 320502 pass
station s5 from 25162 25163 320775 320776 pass
station s5 to 25162 25163 320804 320805 pass
station s6 from 25162 25163 320804 320805 pass
station s6 to 25162 25163 320562 320563 pass
station b3 from 56353 56354 320209 320210 pass
station b3 to 49379 49380 320950 320951 pass
station s7 from 21812 21813 321117 321118 pass
station s7 to 5901 5902 314706 314707 pass
station s8 from 5901 5902 314706 314707 pass
station s8 to 10009 10010 321231 321232 pass
station b4 from 22660 22661 321152 321153 pass
station b4 to 29634 29635 320260 320261 pass
station s9 from 13360 13361 320582 320583 pass
station s9 to 13360 13361 320924 320925 pass
station s10 from 13360 13361 320924 320925 pass
station s10 to 13360 13361 318427 318428 pass
station s11 from 13360 13361 318427 318428 pass
station s11 to 13360 13361 321164 321165 pass
station s12 from 13360 13361 321164 321165 pass
station s12 to 13360 13361 320223 320224 pass
result 32 0 0 0
end
";

// A check of a case that has no certificate, here for a load of over 67 MN.
const UNCHECKED: &str = "\
pipeflex 1
material st 200000 300 12000 7850
section s st 100000 10000 0 0
node a 0 0 0
node b 1000000 0 0
straight p a b s
anchor A a - -
case tip 0 0 0 0 0 0
force tip b 0 0 1000000000000 0 0 0
check sus sustained tip 137900
";

// Its report.
const UNCHECKED_REPORT: &str = "\
pipeflex report 1
model 2 1 1 1 1
case tip uncertified width load b uz
check sus sustained unchecked tip
end
";

#[test]
fn judges_stresses(rt: HostRuntime) -> Result<(), Fail> {
    let rows = [
        (TIP, TIP_REPORT, Status::Done),
        (HOT, HOT_REPORT, Status::Done),
        (ELBOW, ELBOW_REPORT, Status::Done),
        (TEE, TEE_REPORT, Status::Done),
        (TORSION, TORSION_REPORT, Status::Done),
        (UNCHECKED, UNCHECKED_REPORT, Status::Uncertified),
    ];
    for (text, report, status) in rows {
        answers(
            &rt,
            rt.alloc(),
            &["analyse"],
            (text, ""),
            (status, report, ""),
        )?;
    }
    Ok(())
}

// Whether a line tells of a node or a restraint.
fn is_pair_line(line: &[u8]) -> bool {
    line.starts_with(b"node ") || line.starts_with(b"restraint ")
}

// The lines of a report in order, but those of nodes and restraints.
fn judged_lines<'a>(alloc: Global, report: &'a [u8]) -> Result<Vec<&'a [u8]>, AllocError> {
    let mut lines = Vec::new(alloc);
    for line in report.split(|byte| *byte == b'\n') {
        if !is_pair_line(line) {
            lines.push(line)?;
        }
    }
    Ok(lines)
}

// The pairs of nodes and restraints are left out: each certified end may lie one unit beyond the ends to which the independent
// value is rounded. Verdicts, allowables, stresses and counts are compared whole, in order.
#[test]
fn judges_a_line_with_a_loop(rt: HostRuntime) -> Result<(), Fail> {
    let report = report_of(&rt, rt.alloc(), LINE)?;
    let found = judged_lines(rt.alloc(), report.as_slice())?;
    let want = judged_lines(rt.alloc(), LINE_REPORT.as_bytes())?;
    assert!(rt; found == want);
    Ok(())
}
