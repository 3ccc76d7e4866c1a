//! What the program writes for words and a text, and how it ends.
use flex_io::{Idle, SafeSink, SafeSource, Source, Status, StdSink, StdSource, code, take_all};
use pipeflex_top::run;
use std::alloc::{AllocError, Global};
use std::io;
use std::io::{ErrorKind, Read, Write};
use std::process::Abort;
use std::test::Fail;
use std::thread::Threads;

const STRAIGHT: &str = "\
pipeflex 1
material st 200000 300 12000 7850
section s st 100000 10000 0 0
node a 0 0 0
node b 1000000 0 0
straight p a b s
";

const HEAD: &str = "\
pipeflex 1
material st 200000 300 12000 7850
section s st 100000 10000 0 0
node a 0 0 0
";

const TABLE: &str = "\
pipeflex members 1
element p straight 8
kappa 1 592955758499502 592955758499503
kappa 2 467522809585 467522809587
kappa 3 607779652461 607779652462
kappa 4 607779652461 607779652462
kappa 5 607779652461 607779652462
kappa 6 7293355829532 7293355829544
kappa 7 7293355829532 7293355829544
kappa 8 7293355829532 7293355829544
end
";

// The lower ends are A E / L, G J / L, E I / L and 12 E I / L^3 of the square root of 2 m, in 1 / 2^20 N/m and N m, rounded down.
// Worked out from the definitions by a few lines of Python.
const SLANTED_TABLE: &str = "\
pipeflex members 1
element q straight 8
kappa 1 419283037778611 419283037778612
kappa 2 330588549017 330588549019
kappa 3 429765113723 429765113724
kappa 4 429765113723 429765113724
kappa 5 429765113723 429765113724
kappa 6 2578590682338 2578590682344
kappa 7 2578590682338 2578590682344
kappa 8 2578590682338 2578590682344
end
";

const LONGEST: &str = "\
pipeflex 1
material st 200000 300 12000 7850
section s st 100000 10000 0 0
node a 0 0 0
node b 30000000 0 0
straight p a b s
";

const SLANTED: &str = "\
pipeflex 1
material st 200000 300 12000 7850
section s st 100000 10000 0 0
node a 0 0 0
node b 1000000 1000000 0
straight p a b s
";

const LOOSE: &str = "# a line\n\tpipeflex  1 # the header
node a 0 0 0
node\tb 1000000 1000000 0 \t# slanted

material st 200000 300 12000 7850
section s st 100000 10000 0 0
straight p a b s";

// A cantilever: 1 m of pipe of 100 mm by 10 mm with E of 200,000 MPa, fixed at a, and F = 1,000 N down at b. With
// I = pi (100^4 - 80^4) / 64 = 2,898,119.2 mm^4 the textbook has F L^3 / 3 E I = 575,085.6 nm and
// F L^2 / 2 E I = 862,628.4 nrad. The anchor, of K = 10^10 N/m and N m/rad, adds its movement F / K = 100 nm and its rotation
// F L / K = 100 nrad, which lowers the tip by 100 nm more: 575,285.6 nm and 862,728.4 nrad together.
const CANTILEVER: &str = "\
anchor A a - -
case tip 0 0 0 0 0 0
force tip b 0 0 -1000000 0 0 0
";

const CANTILEVER_REPORT: &str = "\
pipeflex report 1
model 2 1 1 1 0
case tip certified
node a -1 1 -1 1 -101 -99 -1 1 99 101 -1 1
node b -1 1 -1 1 -575286 -575285 -1 1 862728 862729 -1 1
restraint A -1 1 -1 1 -1000001 -999999 -1 1 999999 1000001 -1 1
end
";

const REST_REPORT: &str = "\
pipeflex report 1
model 2 1 1 1 0
case rest certified
node a 0 0 0 0 0 0 0 0 0 0 0 0
node b 0 0 0 0 0 0 0 0 0 0 0 0
restraint A 0 0 0 0 0 0 0 0 0 0 0 0
end
";

// The load stands on the anchor of its own node, but for what that gives way.
const HELD_REPORT: &str = "\
pipeflex report 1
model 2 1 2 1 0
case tip certified
node a -1 1 -1 1 -1 0 -1 1 0 1 -1 1
node b -1 1 -1 1 -100 -99 -1 1 0 1 -1 1
restraint A -1 1 -1 1 -695 -694 -1 1 347 348 -1 1
restraint B -1 1 -1 1 -999306 -999305 -1 1 347 348 -1 1
end
";

// The examples of the page of the mechanics and of the member table, with their stored answers.
const STUB: &str = "\
pipeflex 1
# A pipe of 100 mm by 10 mm, built in at a wall, with 1 kN down at its free end 1 m away.
material steel 200000 300 12000 7850
section pipe steel 100000 10000 0 0
node wall 0 0 0
node end 1000000 0 0
straight arm wall end pipe
anchor A wall - -
case pull 0 0 0 0 0 0
force pull end 0 0 -1000000 0 0 0
";

const STUB_REPORT: &str = "\
pipeflex report 1
model 2 1 1 1 0
case pull certified
node wall -1 1 -1 1 -101 -99 -1 1 99 101 -1 1
node end -1 1 -1 1 -575286 -575285 -1 1 862728 862729 -1 1
restraint A -1 1 -1 1 -1000001 -999999 -1 1 999999 1000001 -1 1
end
";

const RISER: &str = "\
pipeflex 1
material A106B 203400 300 11500 7850   # carbon steel
section NPS6-40 A106B 168300 7110 0 0
node P1 0 0 0
node P2 0 0 6000000
straight riser P1 P2 NPS6-40
";

const RISER_TABLE: &str = "\
pipeflex members 1
element riser straight 8
kappa 1 127984442263019 127984442263020
kappa 2 320364357560 320364357562
kappa 3 416473664829 416473664830
kappa 4 416473664829 416473664830
kappa 5 416473664829 416473664830
kappa 6 138824554943 138824554944
kappa 7 138824554943 138824554944
kappa 8 138824554943 138824554944
end
";

const ELBOW_HEAD: &str = "\
pipeflex 1
material st 200000 300 12000 7850
section s st 168300 7110 0 0
node a 0 0 0
";

const ELBOW: &str = "\
pipeflex 1
material st 200000 300 12000 7850
section s st 168300 7110 0 0
node a 0 0 0
node b 229000 229000 0
bend e a b s 229000 90000 229000 0 0
";

// With T R = 1,628,190 mm^2 and r2 = 80.595 mm the characteristic h is 0.250662, so k is 1.65 / h = 6.58256, ii is 0.9 / h^(2/3) and io
// is 0.75 / h^(2/3). The stiffnesses were worked out by the rules of a bend in a few lines of Python, in exact whole numbers.
const ELBOW_TABLE: &str = "\
pipeflex members 1
element e bend 6
factor k 6582563 6582564 ii 2263861 2263862 io 1886551 1886552
kappa 1 1037689499935 1037689499937
kappa 2 107892269676078 107892269676089
kappa 3 1280390905149576 1280390905149711
kappa 4 1214819785725 1214819785726
kappa 5 3022696077381 3022696077382
kappa 6 187737538162367 187737538162386
end
";

const THICK_HEAD: &str = "\
pipeflex 1
material st 200000 300 12000 7850
section s st 100000 20000 0 0
node a 0 0 0
";

// With T R = 1,200 mm^2 and r2 = 40 mm h is 0.75: k is 2.2, and the index across the plane is 1.
const THICK_TABLE: &str = "\
pipeflex members 1
element e bend 6
factor k 2199999 2200001 ii 1090272 1090273 io 1000000 1000000
kappa 1 4321404121211 4321404121213
kappa 2 5966459160007783 5966459160008216
kappa 3 12561100837487729 12561100837489158
kappa 4 4668395571410 4668395571412
kappa 5 6496038253805 6496038253806
kappa 6 7255195179336687 7255195179337271
end
";

const RETURN_TABLE: &str = "\
pipeflex members 1
element e bend 6
factor k 6582563 6582564 ii 2263861 2263862 io 1886551 1886552
kappa 1 518844749967 518844749969
kappa 2 19602958757335 19602958757338
kappa 3 99507278726866 99507278726877
kappa 4 866552744499 866552744500
kappa 5 866552744499 866552744500
kappa 6 57828213981803 57828213981809
end
";

// An expansion loop of four elbows; its table was worked out as that of the elbow.
const LOOP: &str = "\
pipeflex 1
# a flat expansion loop, 2.4 m deep and 2 m wide, in a line of 4 inch pipe, schedule 40, between two anchors 12 m apart
material A106B 203400 300 11500 7850
section NPS4-40 A106B 114300 6020 0 0
node W 0 0 0
node P1 4848000 0 0
node P2 5000000 152000 0
node P3 5000000 2248000 0
node P4 5152000 2400000 0
node P5 6848000 2400000 0
node P6 7000000 2248000 0
node P7 7000000 152000 0
node P8 7152000 0 0
node E 12000000 0 0
straight west W P1 NPS4-40
bend elbow1 P1 P2 NPS4-40 152000 90000 5000000 0 0
straight out P2 P3 NPS4-40
bend elbow2 P3 P4 NPS4-40 152000 90000 5000000 2400000 0
straight top P4 P5 NPS4-40
bend elbow3 P5 P6 NPS4-40 152000 90000 7000000 2400000 0
straight back P6 P7 NPS4-40
bend elbow4 P7 P8 NPS4-40 152000 90000 7000000 0 0
straight east P8 E NPS4-40
anchor foot W - -
anchor head E - -
";

const LOOP_TABLE: &str = "\
pipeflex members 1
element west straight 8
kappa 1 90091301661509 90091301661510
kappa 2 101879391583 101879391584
kappa 3 132443209058 132443209059
kappa 4 132443209058 132443209059
kappa 5 132443209058 132443209059
kappa 6 67621643026 67621643027
kappa 7 67621643026 67621643027
kappa 8 67621643026 67621643027
element elbow1 bend 6
factor k 5285430 5285431 ii 1955720 1955721 io 1629767 1629768
kappa 1 508801605846 508801605847
kappa 2 119765817702375 119765817702404
kappa 3 1251846508924054 1251846508924372
kappa 4 589574331489 589574331490
kappa 5 1328599294492 1328599294493
kappa 6 186764541618814 186764541618860
element out straight 8
kappa 1 208379117583490 208379117583491
kappa 2 235644699616 235644699618
kappa 3 306338109502 306338109503
kappa 4 306338109502 306338109503
kappa 5 306338109502 306338109503
kappa 6 836757699604 836757699607
kappa 7 836757699604 836757699607
kappa 8 836757699604 836757699607
element elbow2 bend 6
factor k 5285430 5285431 ii 1955720 1955721 io 1629767 1629768
kappa 1 508801605846 508801605847
kappa 2 119765817702375 119765817702404
kappa 3 1251846508924054 1251846508924372
kappa 4 589574331489 589574331490
kappa 5 1328599294492 1328599294493
kappa 6 186764541618814 186764541618860
element top straight 8
kappa 1 257525135881483 257525135881484
kappa 2 291221279715 291221279717
kappa 3 378587663630 378587663631
kappa 4 378587663630 378587663631
kappa 5 378587663630 378587663631
kappa 6 1579414091550 1579414091555
kappa 7 1579414091550 1579414091555
kappa 8 1579414091550 1579414091555
element elbow3 bend 6
factor k 5285430 5285431 ii 1955720 1955721 io 1629767 1629768
kappa 1 508801605846 508801605847
kappa 2 119765817702375 119765817702404
kappa 3 1251846508924054 1251846508924372
kappa 4 589574331489 589574331490
kappa 5 1328599294492 1328599294493
kappa 6 186764541618814 186764541618860
element back straight 8
kappa 1 208379117583490 208379117583491
kappa 2 235644699616 235644699618
kappa 3 306338109502 306338109503
kappa 4 306338109502 306338109503
kappa 5 306338109502 306338109503
kappa 6 836757699604 836757699607
kappa 7 836757699604 836757699607
kappa 8 836757699604 836757699607
element elbow4 bend 6
factor k 5285430 5285431 ii 1955720 1955721 io 1629767 1629768
kappa 1 508801605846 508801605847
kappa 2 119765817702375 119765817702404
kappa 3 1251846508924054 1251846508924372
kappa 4 589574331489 589574331490
kappa 5 1328599294492 1328599294493
kappa 6 186764541618814 186764541618860
element east straight 8
kappa 1 90091301661509 90091301661510
kappa 2 101879391583 101879391584
kappa 3 132443209058 132443209059
kappa 4 132443209058 132443209059
kappa 5 132443209058 132443209059
kappa 6 67621643026 67621643027
kappa 7 67621643026 67621643027
kappa 8 67621643026 67621643027
end
";

// A header with a branch. The stiffnesses are those of straights; the pad is as thick as the wall, so h is (1.5 T)^2.5 / (T^1.5 r2) and io
// is 0.9 / h^(2/3), worked out by cubes of whole numbers in a few lines of Python.
const BRANCHED: &str = "\
pipeflex 1
# a header of 6 inch pipe, schedule 40, 4 m long between two anchors, with a branch of 3 inch pipe upwards from its middle
material A106B 203400 300 11500 7850
section NPS6-40 A106B 168300 7110 0 0
section NPS3-40 A106B 88900 5490 0 0
node W 0 0 0
node T 2000000 0 0
node E 4000000 0 0
node B 2000000 0 1500000
straight west W T NPS6-40
straight east T E NPS6-40
straight branch T B NPS3-40
tee T branch NPS6-40 pad 7110
anchor foot W - -
anchor head E - -
";

const BRANCHED_TABLE: &str = "\
pipeflex members 1
element west straight 8
kappa 1 383953326789059 383953326789060
kappa 2 961093072683 961093072685
kappa 3 1249420994489 1249420994490
kappa 4 1249420994489 1249420994490
kappa 5 1249420994489 1249420994490
kappa 6 3748262983467 3748262983470
kappa 7 3748262983467 3748262983470
kappa 8 3748262983467 3748262983470
element east straight 8
kappa 1 383953326789059 383953326789060
kappa 2 961093072683 961093072685
kappa 3 1249420994489 1249420994490
kappa 4 1249420994489 1249420994490
kappa 5 1249420994489 1249420994490
kappa 6 3748262983467 3748262983470
kappa 7 3748262983467 3748262983470
kappa 8 3748262983467 3748262983470
element branch straight 8
kappa 1 204550215392847 204550215392848
kappa 2 137429583686 137429583687
kappa 3 178658458792 178658458793
kappa 4 178658458792 178658458793
kappa 5 178658458792 178658458793
kappa 6 952845113557 952845113563
kappa 7 952845113557 952845113563
kappa 8 952845113557 952845113563
tee T ii 1982915 1982916 io 2310553 2310554
end
";

// Straights of a micrometre, which are too stiff, so that of each only the name is told.
const TEE_HEAD: &str = "\
pipeflex 1
material st 200000 300 12000 7850
section s st 168300 7110 0 0
node a 0 0 0
node b 1 0 0
node c 2 0 0
node d 1 1 0
straight p a b s
straight q b c s
straight r b d s
";

const MISFIT: &str = "refused 12 line 6 geometry\n";

const USAGE: &str =
    "usage: pipeflex analyse [--workers N] | members | echo | generate M | summary M [--workers N]\n";

// Without a case nothing is asked of the model.
const NO_CASE_REPORT: &str = "pipeflex report 1\nmodel 2 1 0 0 0\nend\n";

// A cantilever of 2 m in two straights, and F = 2,810 N down at its end. The textbook has F L^3 / 3 E I and F L^2 / 2 E I at the end,
// F L^2 (3 - 1) / 6 E I and F L (2 L - L / 2) / 2 E I in the middle; the anchor's F / K and F L / K come to it.
const LINE: &str = "\
node c 2000000 0 0
straight q b c s
anchor A a - -
case tip 0 0 0 0 0 0
force tip c 0 0 -2810000 0 0 0
";

const LINE_REPORT: &str = "\
pipeflex report 1
model 3 2 1 1 0
case tip certified
node a -1 1 -1 1 -282 -280 -1 1 561 563 -1 1
node b -1 1 -1 1 -4040820 -4040819 -1 1 7272519 7272520 -1 1
node c -1 1 -1 1 -12929330 -12929329 -1 1 9696505 9696506 -1 1
restraint A -1 1 -1 1 -2810001 -2809999 -1 1 5619999 5620001 -1 1
end
";

// A cantilever with a spring of 1 N/um along (3, 0, 4) at its end, and 2,249 N down there; and one with a spring of 1,000,000 N m against
// the rotation about y, and 2,290 N down. Solved from the textbook's stiffness of a straight, to 60 digits, by a few lines of Python.
const SLOPED: &str = "\
anchor A a - -
linear R b 3 0 4 1000000
case tip 0 0 0 0 0 0
force tip b 0 0 -2249000 0 0 0
";

const SLOPED_REPORT: &str = "\
pipeflex report 1
model 2 1 2 1 0
case tip certified
node a 45 46 -1 1 -165 -164 -1 1 164 165 -1 1
node b 847 848 -1 1 -945818 -945817 -1 1 1418397 1418398 -1 1
restraint A 453687 453688 -1 1 -1644084 -1644083 -1 1 1644083 1644084 -1 1
restraint R -756146 -756145
end
";

const TURNED: &str = "\
anchor A a - -
twist T b 0 1 0 1000000
case tip 0 0 0 0 0 0
force tip b 0 0 -2290000 0 0 0
";

const TURNED_REPORT: &str = "\
pipeflex report 1
model 2 1 2 1 0
case tip certified
node a -1 1 -1 1 -230 -228 -1 1 156 157 -1 1
node b -1 1 -1 1 -692001 -692000 -1 1 724913 724914 -1 1
restraint A -1 1 -1 1 -2290001 -2289999 -1 1 1565086 1565087 -1 1
restraint T 724913 724914
end
";

// The same spring as a gap of nothing.
const SHUT: &str = "\
anchor A a - -
gap R b 3 0 4 0 1000000
case tip 0 0 0 0 0 0
force tip b 0 0 -2249000 0 0 0
";

// A hanger of 1 N/um at the end, and 1,000 N down there; no hanger load acts. With c = L^3 / 3 E I + 1 / K + L^2 / K of the cantilever, or
// 0.5752856 um/N, the end goes F c / (1 + 1 N/um c) = 365,194.48 nm down, and the hanger holds 365,194.48 mN. The anchor has the
// remaining 634,805.52 mN, which turn the end by F L^2 / 2 E I + F L / K, and move the anchor by F / K.
const HUNG: &str = "\
anchor A a - -
hanger H b 1000000 500000
case tip 0 0 0 0 0 0
force tip b 0 0 -1000000 0 0 0
";

const HUNG_REPORT: &str = "\
pipeflex report 1
model 2 1 2 1 0
case tip certified
node a -1 1 -1 1 -64 -63 -1 1 63 64 -1 1
node b -1 1 -1 1 -365195 -365194 -1 1 547664 547665 -1 1
restraint A -1 1 -1 1 -634806 -634805 -1 1 634805 634806 -1 1
restraint H -365195 -365194
end
";

// A pipe that rests on a support, and one with play on both sides of a guide.
const SUPPORTED: &str = "\
pipeflex 1
material st 200000 300 12000 7850
section s st 100000 10000 0 0
node a 0 0 0
node b 1000000 0 0
straight p a b s
anchor A a - -
oneway R b 0 0 -1 0 -
case tip 0 0 0 0 0 0
force tip b 0 0 -1000000 0 0 0
";

const GUIDED: &str = "\
anchor A a - -
gap G b 0 1 0 1 -
";

// 1,000 N up at its end lift it off.
const LIFTED: &str = "\
anchor A a - -
oneway R b 0 0 -1 0 -
case tip 0 0 0 0 0 0
force tip b 0 0 1000000 0 0 0
";

const LIFTED_REPORT: &str = "\
pipeflex report 1
model 2 1 2 1 0
case tip certified
node a -1 1 -1 1 99 101 -1 1 -101 -99 -1 1
node b -1 1 -1 1 575285 575286 -1 1 -862729 -862728 -1 1
restraint A -1 1 -1 1 999999 1000001 -1 1 -1000001 -999999 -1 1
restraint R open 0 0
end
";

// Nothing acts, so that the support touches without force.
const RESTING: &str = "\
anchor A a - -
oneway R b 0 0 -1 0 -
case rest 0 0 0 0 0 0
";

const RESTING_REPORT: &str = "\
pipeflex report 1
model 2 1 2 1 0
case rest certified
node a 0 0 0 0 0 0 0 0 0 0 0 0
node b 0 0 0 0 0 0 0 0 0 0 0 0
restraint A 0 0 0 0 0 0 0 0 0 0 0 0
restraint R open 0 0
end
";

// A guide on one side touches without force while 1,000 N act across it.
const SIDE_GUIDE: &str = "\
anchor A a - -
oneway S b 0 1 0 0 -
case tip 0 0 0 0 0 0
force tip b 0 0 -1000000 0 0 0
";

const SIDE_GUIDE_REPORT: &str = "\
pipeflex report 1
model 2 1 2 1 0
case tip uncertified state S plus
guess a 0 0 -100 0 100 0
guess b 0 0 -575286 0 862728 0
end
";

// A pipe between two anchors, 100 K hotter. It expands by 1.2 mm, and E A, 1 m and twice 10^10 N/m leave 609,635.8 N.
const HOT: &str = "\
anchor A a - -
anchor B b - -
case rest 0 0 0 0 0 0
case hot 0 0 0 0 100000 0
";

const HOT_REPORT: &str = "\
pipeflex report 1
model 2 1 2 2 0
case rest certified
node a 0 0 0 0 0 0 0 0 0 0 0 0
node b 0 0 0 0 0 0 0 0 0 0 0 0
restraint A 0 0 0 0 0 0 0 0 0 0 0 0
restraint B 0 0 0 0 0 0 0 0 0 0 0 0
case hot certified
node a -60964 -60963 -1 1 -1 1 -1 1 -1 1 -1 1
node b 60963 60964 -1 1 -1 1 -1 1 -1 1 -1 1
restraint A -609635826 -609635825 -1 1 -1 1 -1 1 -1 1 -1 1
restraint B 609635825 609635826 -1 1 -1 1 -1 1 -1 1 -1 1
end
";

// An anchor of 10^10 N/m that settles by 6,711 um: the spring alone would bear over 2^26 N.
const SETTLED: &str = "\
anchor A a - -
case down 0 0 0 0 0 0
move down A 0 0 -6711
";

const SETTLED_REPORT: &str = "\
pipeflex report 1
model 2 1 1 1 0
case down uncertified width solve 1
end
";

const SECTION: &str = "\
pipeflex 1
material st 200000 300 12000 7850
section s st 100000 10000 0 0
";

// The words as a command line has them.
fn line_of(alloc: Global, words: &[&str]) -> Result<Vec<String>, AllocError> {
    let mut line = Vec::new(alloc);
    for word in words {
        line.push(word.to_string(alloc)?)?;
    }
    Ok(line)
}

// The run ends with this status, output and message; the sinks have no more room than for these.
fn ends<R: Threads + Sync + Abort, S: Source>(
    rt: &R,
    alloc: Global,
    line: &[String],
    source: &mut S,
    want: (Status, &str, &str),
) -> Result<(), Fail> {
    let (status, told, message) = want;
    let mut out = SafeSink::new(alloc, told.len())?;
    let mut err = SafeSink::new(alloc, message.len())?;
    let found = run(rt, alloc, line, source, &mut out, &mut err, &Idle);
    assert!(rt;
        (code(found), out.bytes(), err.bytes())
            == (code(status), told.as_bytes(), message.as_bytes()),
        "{told}{message}"
    );
    Ok(())
}

// The words and a text of a head and a rest are answered so.
pub(crate) fn answers<R: Threads + Sync + Abort>(
    rt: &R,
    alloc: Global,
    words: &[&str],
    text: (&str, &str),
    want: (Status, &str, &str),
) -> Result<(), Fail> {
    let line = line_of(alloc, words)?;
    let (head, rest) = text;
    let mut bytes = head.as_bytes().to_vec(alloc)?;
    bytes.extend_from_slice(rest.as_bytes())?;
    ends(rt, alloc, &line, &mut SafeSource::new(bytes), want)
}

/// The report of a model whose cases are all certified.
pub(crate) fn report_of<R: Threads + Sync + Abort>(
    rt: &R,
    alloc: Global,
    text: &str,
) -> Result<Vec<u8>, Fail> {
    let line = line_of(alloc, &["analyse"])?;
    let mut source = SafeSource::new(text.as_bytes().to_vec(alloc)?);
    let mut out = SafeSink::new(alloc, 1 << 16)?;
    let mut err = SafeSink::new(alloc, 0)?;
    let status = run(rt, alloc, &line, &mut source, &mut out, &mut err, &Idle);
    assert!(rt; code(status) == code(Status::Done));
    Ok(out.bytes().to_vec(alloc)?)
}

type Row = (
    &'static [&'static str],
    (&'static str, &'static str),
    (Status, &'static str, &'static str),
);

#[test]
fn answers_words(rt: HostRuntime) -> Result<(), Fail> {
    let rows: [Row; 15] = [
        // The words.
        (&["members"], (STRAIGHT, ""), (Status::Done, TABLE, "")),
        (&["echo"], (STRAIGHT, ""), (Status::Done, STRAIGHT, "")),
        (&[], (STRAIGHT, ""), (Status::Usage, "", USAGE)),
        (&["member"], (STRAIGHT, ""), (Status::Usage, "", USAGE)),
        (
            &["members", "echo"],
            (STRAIGHT, ""),
            (Status::Usage, "", USAGE),
        ),
        (
            &["analyse"],
            (STRAIGHT, ""),
            (Status::Done, NO_CASE_REPORT, ""),
        ),
        (
            &["analyse", "--workers", "64"],
            (STRAIGHT, ""),
            (Status::Done, NO_CASE_REPORT, ""),
        ),
        (
            &["analyse", "--workers", "0"],
            (STRAIGHT, ""),
            (Status::Usage, "", USAGE),
        ),
        (
            &["analyse", "--workers", "65"],
            (STRAIGHT, ""),
            (Status::Usage, "", USAGE),
        ),
        (
            &["analyse", "--workers", "04"],
            (STRAIGHT, ""),
            (Status::Usage, "", USAGE),
        ),
        (
            &["analyse", "--workers", "-4"],
            (STRAIGHT, ""),
            (Status::Usage, "", USAGE),
        ),
        (
            &["analyse", "--workers"],
            (STRAIGHT, ""),
            (Status::Usage, "", USAGE),
        ),
        (
            &["members", "--workers", "4"],
            (STRAIGHT, ""),
            (Status::Usage, "", USAGE),
        ),
        // A sink without room.
        (&["members"], (STRAIGHT, ""), (Status::WriteFault, "", "")),
        (&["members"], ("", ""), (Status::WriteFault, "", "")),
    ];
    for (words, text, want) in rows {
        answers(&rt, rt.alloc(), words, text, want)?;
    }
    Ok(())
}

// Of a generated model: the text, of one loop.
const GENERATED: &str = "\
pipeflex 1
material m 200000 300 12000 7850
section s m 168300 7110 0 0
node p0 0 0 0
node p1 3000000 0 0
node p2 3000000 3000000 0
node p3 6000000 3000000 0
node p4 6000000 0 0
straight e0 p0 p1 s
straight e1 p1 p2 s
straight e2 p2 p3 s
straight e3 p3 p4 s
anchor a0 p0 - -
anchor a1 p4 - -
oneway r0 p2 0 0 -1 0 100000000
case w 0 0 -1000 0 0 0
";

// The words ask for a generated model, or have no form; the source keeps what it has.
fn answers_unread<R: Threads + Sync + Abort>(
    rt: &R,
    alloc: Global,
    words: &[&str],
    want: (Status, &str, &str),
) -> Result<(), Fail> {
    let line = line_of(alloc, words)?;
    let mut source = SafeSource::new(STRAIGHT.as_bytes().to_vec(alloc)?);
    ends(rt, alloc, &line, &mut source, want)?;
    let rest = take_all(alloc, &mut source, 4096)?;
    assert!(rt; rest.len() == STRAIGHT.len());
    Ok(())
}

#[test]
fn makes_models(rt: HostRuntime) -> Result<(), Fail> {
    let rows: [(&[&str], (Status, &str, &str)); 13] = [
        (&["generate", "1"], (Status::Done, GENERATED, "")),
        (
            &["summary", "1"],
            (
                Status::Done,
                "summary 1 nodes 5 certified 1 uncertified 0\n",
                "",
            ),
        ),
        (
            &["summary", "20"],
            (
                Status::Done,
                "summary 20 nodes 81 certified 1 uncertified 0\n",
                "",
            ),
        ),
        (
            &["summary", "1", "--workers", "64"],
            (
                Status::Done,
                "summary 1 nodes 5 certified 1 uncertified 0\n",
                "",
            ),
        ),
        (&["generate", "0"], (Status::Usage, "", USAGE)),
        (&["generate", "401"], (Status::Usage, "", USAGE)),
        (&["generate"], (Status::Usage, "", USAGE)),
        (
            &["generate", "5", "--workers", "4"],
            (Status::Usage, "", USAGE),
        ),
        (&["summary", "01"], (Status::Usage, "", USAGE)),
        (&["summary"], (Status::Usage, "", USAGE)),
        (
            &["summary", "5", "--workers", "65"],
            (Status::Usage, "", USAGE),
        ),
        (&["summary", "--workers", "4"], (Status::Usage, "", USAGE)),
        // A sink without room.
        (&["generate", "1"], (Status::WriteFault, "", "")),
    ];
    for (words, want) in rows {
        answers_unread(&rt, rt.alloc(), words, want)?;
    }
    Ok(())
}

#[test]
fn writes_tables_and_texts(rt: HostRuntime) -> Result<(), Fail> {
    let rows: [Row; 7] = [
        (&["members"], (RISER, ""), (Status::Done, RISER_TABLE, "")),
        // The table. A straight of a micrometre is too stiff.
        (
            &["members"],
            (HEAD, "node b 1000000 1000000 0\nstraight q b a s\n"),
            (Status::Done, SLANTED_TABLE, ""),
        ),
        (
            &["members"],
            (HEAD, ""),
            (Status::Done, "pipeflex members 1\nend\n", ""),
        ),
        (
            &["members"],
            (HEAD, "node b 1 0 0\nstraight p a b s\n"),
            (
                Status::Done,
                "pipeflex members 1\nelement p wide\nend\n",
                "",
            ),
        ),
        // The canonical text.
        (&["echo"], (LONGEST, ""), (Status::Done, LONGEST, "")),
        (&["echo"], (SLANTED, ""), (Status::Done, SLANTED, "")),
        (&["echo"], (LOOSE, ""), (Status::Done, SLANTED, "")),
    ];
    for (words, text, want) in rows {
        answers(&rt, rt.alloc(), words, text, want)?;
    }
    Ok(())
}

#[test]
fn writes_bends(rt: HostRuntime) -> Result<(), Fail> {
    let rows: [Row; 6] = [
        (&["members"], (LOOP, ""), (Status::Done, LOOP_TABLE, "")),
        (&["members"], (ELBOW, ""), (Status::Done, ELBOW_TABLE, "")),
        (&["echo"], (ELBOW, ""), (Status::Done, ELBOW, "")),
        (
            &["members"],
            (
                THICK_HEAD,
                "node b 60000 60000 0\nbend e a b s 60000 90000 60000 0 0\n",
            ),
            (Status::Done, THICK_TABLE, ""),
        ),
        // A half circle, whose corner is any point on its outer side.
        (
            &["members"],
            (
                ELBOW_HEAD,
                "node b 458000 0 0\nbend e a b s 229000 180000 0 229000 0\n",
            ),
            (Status::Done, RETURN_TABLE, ""),
        ),
        // The other side of the chord has a bend of the same stiffness.
        (
            &["members"],
            (
                ELBOW_HEAD,
                "node b 229000 229000 0\nbend e a b s 229000 90000 0 229000 0\n",
            ),
            (Status::Done, ELBOW_TABLE, ""),
        ),
    ];
    for (words, text, want) in rows {
        answers(&rt, rt.alloc(), words, text, want)?;
    }
    Ok(())
}

#[test]
fn writes_tees(rt: HostRuntime) -> Result<(), Fail> {
    let rows: [Row; 5] = [
        (
            &["members"],
            (BRANCHED, ""),
            (Status::Done, BRANCHED_TABLE, ""),
        ),
        // T = 7.11 mm and r2 = 80.595 mm: h is T / r2; 4 T / r2 with a pad over 1.5 T; 4.4 T / r2; and so great that both factors are 1.
        (
            &["members"],
            (TEE_HEAD, "tee b r s unreinforced 0\n"),
            (
                Status::Done,
                "pipeflex members 1\nelement p wide\nelement q wide\nelement r wide\ntee b ii 3656142 3656143 io 4541522 4541523\nend\n",
                "",
            ),
        ),
        (
            &["members"],
            (TEE_HEAD, "tee b r s pad 15000\n"),
            (
                Status::Done,
                "pipeflex members 1\nelement p wide\nelement q wide\nelement r wide\ntee b ii 1601728 1601729 io 1802304 1802305\nend\n",
                "",
            ),
        ),
        (
            &["members"],
            (TEE_HEAD, "tee b r s coefficient 4400\n"),
            (
                Status::Done,
                "pipeflex members 1\nelement p wide\nelement q wide\nelement r wide\ntee b ii 1518511 1518512 io 1691348 1691349\nend\n",
                "",
            ),
        ),
        (
            &["members"],
            (TEE_HEAD, "tee b r s coefficient 100000\n"),
            (
                Status::Done,
                "pipeflex members 1\nelement p wide\nelement q wide\nelement r wide\ntee b ii 1000000 1000000 io 1000000 1000000\nend\n",
                "",
            ),
        ),
    ];
    for (words, text, want) in rows {
        answers(&rt, rt.alloc(), words, text, want)?;
    }
    Ok(())
}

#[test]
fn refuses_bends(rt: HostRuntime) -> Result<(), Fail> {
    let rows: [Row; 5] = [
        // A chord of 325.3 mm, 1.4 mm more than the radius and the angle give.
        (
            &["members"],
            (
                ELBOW_HEAD,
                "node b 229000 231000 0\nbend e a b s 229000 90000 229000 0 0\n",
            ),
            (Status::Refused, "", MISFIT),
        ),
        // Another angle.
        (
            &["echo"],
            (
                ELBOW_HEAD,
                "node b 229000 229000 0\nbend e a b s 229000 45000 229000 0 0\n",
            ),
            (Status::Refused, "", MISFIT),
        ),
        // A radius below half of the diameter.
        (
            &["members"],
            (
                ELBOW_HEAD,
                "node b 84000 84000 0\nbend e a b s 84000 90000 84000 0 0\n",
            ),
            (Status::Refused, "", MISFIT),
        ),
        // A corner on the line of the chord, and one that is far.
        (
            &["members"],
            (
                ELBOW_HEAD,
                "node b 229000 229000 0\nbend e a b s 229000 90000 -50000 -50000 0\n",
            ),
            (Status::Refused, "", MISFIT),
        ),
        (
            &["members"],
            (
                ELBOW_HEAD,
                "node b 229000 229000 0\nbend e a b s 229000 90000 100000001 0 0\n",
            ),
            (Status::Refused, "", MISFIT),
        ),
    ];
    for (words, text, want) in rows {
        answers(&rt, rt.alloc(), words, text, want)?;
    }
    Ok(())
}

#[test]
fn refuses_one_more_line(rt: HostRuntime) -> Result<(), Fail> {
    let rows: [Row; 4] = [
        // A line more that is refused.
        (
            &["echo"],
            (HEAD, "node b 30000001 0 0\nstraight p a b s\n"),
            (Status::Refused, "", "refused 11 line 6 longelement\n"),
        ),
        (
            &["echo"],
            (HEAD, "node b 0 0 0\nstraight p a b s\n"),
            (Status::Refused, "", "refused 10 line 6 zerolength\n"),
        ),
        (
            &["echo"],
            (HEAD, "node a 1 1 1\n"),
            (Status::Refused, "", "refused 8 line 5 doubled\n"),
        ),
        (
            &["echo"],
            (HEAD, "section t st 100000 50000 0 0\n"),
            (Status::Refused, "", "refused 13 line 5 walltoothick\n"),
        ),
    ];
    for (words, text, want) in rows {
        answers(&rt, rt.alloc(), words, text, want)?;
    }
    Ok(())
}

#[test]
fn analyses_one_straight(rt: HostRuntime) -> Result<(), Fail> {
    let rows: [Row; 11] = [
        // Reports on one straight.
        (
            &["analyse"],
            (STRAIGHT, CANTILEVER),
            (Status::Done, CANTILEVER_REPORT, ""),
        ),
        (
            &["analyse", "--workers", "7"],
            (STRAIGHT, CANTILEVER),
            (Status::Done, CANTILEVER_REPORT, ""),
        ),
        (
            &["analyse"],
            (STRAIGHT, "anchor A a - -\ncase rest 0 0 0 0 0 0\n"),
            (Status::Done, REST_REPORT, ""),
        ),
        (
            &["analyse", "--workers", "7"],
            (STRAIGHT, "anchor A a - -\ncase rest 0 0 0 0 0 0\n"),
            (Status::Done, REST_REPORT, ""),
        ),
        (
            &["analyse"],
            (
                STRAIGHT,
                "anchor A a - -\nanchor B b - -\ncase tip 0 0 0 0 0 0\nforce tip b 0 0 -1000000 0 0 0\n",
            ),
            (Status::Done, HELD_REPORT, ""),
        ),
        (
            &["analyse", "--workers", "7"],
            (
                STRAIGHT,
                "anchor A a - -\nanchor B b - -\ncase tip 0 0 0 0 0 0\nforce tip b 0 0 -1000000 0 0 0\n",
            ),
            (Status::Done, HELD_REPORT, ""),
        ),
        (
            &["analyse"],
            (
                STRAIGHT,
                "anchor A a 2000000000000 -\ncase rest 0 0 0 0 0 0\n",
            ),
            (
                Status::Uncertified,
                "pipeflex report 1\nmodel 2 1 1 1 0\ncase rest uncertified width matrix a ux\nend\n",
                "",
            ),
        ),
        (&["analyse"], (STUB, ""), (Status::Done, STUB_REPORT, "")),
        // A pipe of a micrometre is too stiff.
        (
            &["analyse"],
            (
                HEAD,
                "node b 1 0 0\nstraight p a b s\nanchor A a - -\ncase rest 0 0 0 0 0 0\n",
            ),
            (
                Status::Uncertified,
                "pipeflex report 1\nmodel 2 1 1 1 0\ncase rest uncertified width element p\nend\n",
                "",
            ),
        ),
        (
            &["analyse"],
            (
                STRAIGHT,
                "anchor A a - -\ncase tip 0 0 0 0 0 0\nforce tip b 0 0 1000000000000 0 0 0\n",
            ),
            (
                Status::Uncertified,
                "pipeflex report 1\nmodel 2 1 1 1 0\ncase tip uncertified width load b uz\nend\n",
                "",
            ),
        ),
        (
            &["analyse", "--workers", "7"],
            (
                STRAIGHT,
                "anchor A a - -\ncase tip 0 0 0 0 0 0\nforce tip b 0 0 1000000000000 0 0 0\n",
            ),
            (
                Status::Uncertified,
                "pipeflex report 1\nmodel 2 1 1 1 0\ncase tip uncertified width load b uz\nend\n",
                "",
            ),
        ),
    ];
    for (words, text, want) in rows {
        answers(&rt, rt.alloc(), words, text, want)?;
    }
    Ok(())
}

#[test]
fn analyses_whole_models(rt: HostRuntime) -> Result<(), Fail> {
    let rows: [Row; 6] = [
        (
            &["analyse"],
            (STRAIGHT, LINE),
            (Status::Done, LINE_REPORT, ""),
        ),
        (
            &["analyse"],
            (STRAIGHT, SLOPED),
            (Status::Done, SLOPED_REPORT, ""),
        ),
        (
            &["analyse"],
            (STRAIGHT, TURNED),
            (Status::Done, TURNED_REPORT, ""),
        ),
        (
            &["analyse"],
            (STRAIGHT, SHUT),
            (Status::Done, SLOPED_REPORT, ""),
        ),
        (
            &["analyse"],
            (STRAIGHT, HUNG),
            (Status::Done, HUNG_REPORT, ""),
        ),
        (
            &["analyse", "--workers", "7"],
            (STRAIGHT, HUNG),
            (Status::Done, HUNG_REPORT, ""),
        ),
    ];
    for (words, text, want) in rows {
        answers(&rt, rt.alloc(), words, text, want)?;
    }
    Ok(())
}

#[test]
fn analyses_contacts(rt: HostRuntime) -> Result<(), Fail> {
    let rows: [Row; 6] = [
        (
            &["analyse"],
            (STRAIGHT, LIFTED),
            (Status::Done, LIFTED_REPORT, ""),
        ),
        (
            &["analyse", "--workers", "7"],
            (STRAIGHT, LIFTED),
            (Status::Done, LIFTED_REPORT, ""),
        ),
        (
            &["analyse"],
            (STRAIGHT, RESTING),
            (Status::Done, RESTING_REPORT, ""),
        ),
        (
            &["analyse"],
            (STRAIGHT, SIDE_GUIDE),
            (Status::Uncertified, SIDE_GUIDE_REPORT, ""),
        ),
        (&["echo"], (SUPPORTED, ""), (Status::Done, SUPPORTED, "")),
        (&["members"], (STRAIGHT, GUIDED), (Status::Done, TABLE, "")),
    ];
    for (words, text, want) in rows {
        answers(&rt, rt.alloc(), words, text, want)?;
    }
    Ok(())
}

#[test]
fn analyses_what_acts(rt: HostRuntime) -> Result<(), Fail> {
    let rows: [Row; 2] = [
        (
            &["analyse"],
            (STRAIGHT, HOT),
            (Status::Done, HOT_REPORT, ""),
        ),
        (
            &["analyse"],
            (STRAIGHT, SETTLED),
            (Status::Uncertified, SETTLED_REPORT, ""),
        ),
    ];
    for (words, text, want) in rows {
        answers(&rt, rt.alloc(), words, text, want)?;
    }
    Ok(())
}

#[test]
fn tells_what_floats(rt: HostRuntime) -> Result<(), Fail> {
    let rows: [Row; 6] = [
        // The straight from c to d.
        (
            &["analyse"],
            (
                STRAIGHT,
                "anchor A a - -\ncase rest 0 0 0 0 0 0\nnode c 0 5000000 0\nnode d 1000000 5000000 0\nstraight q c d s\n",
            ),
            (
                Status::Uncertified,
                "pipeflex report 1\nmodel 4 2 1 1 0\ncase rest uncertified pivot d ux\nend\n",
                "",
            ),
        ),
        // All of it, all but a slide along x, and a node that no element touches.
        (
            &["analyse"],
            (STRAIGHT, "case rest 0 0 0 0 0 0\n"),
            (
                Status::Uncertified,
                "pipeflex report 1\nmodel 2 1 0 1 0\ncase rest uncertified pivot b ux\nend\n",
                "",
            ),
        ),
        (
            &["analyse"],
            (STRAIGHT, "linear A a 1 0 0 -\ncase rest 0 0 0 0 0 0\n"),
            (
                Status::Uncertified,
                "pipeflex report 1\nmodel 2 1 1 1 0\ncase rest uncertified pivot b uy\nend\n",
                "",
            ),
        ),
        (
            &["analyse"],
            (
                HEAD,
                "node b 1000000 0 0\nanchor A a - -\ncase rest 0 0 0 0 0 0\n",
            ),
            (
                Status::Uncertified,
                "pipeflex report 1\nmodel 2 0 1 1 0\ncase rest uncertified pivot b ux\nend\n",
                "",
            ),
        ),
        // A slanted straight at rest, and one that is held, without a case.
        (
            &["analyse"],
            (SLANTED, "anchor A a - -\ncase rest 0 0 0 0 0 0\n"),
            (
                Status::Done,
                "pipeflex report 1\nmodel 2 1 1 1 0\ncase rest certified\nnode a 0 0 0 0 0 0 0 0 0 0 0 0\nnode b 0 0 0 0 0 0 0 0 0 0 0 0\nrestraint A 0 0 0 0 0 0 0 0 0 0 0 0\nend\n",
                "",
            ),
        ),
        (
            &["analyse"],
            (STRAIGHT, "anchor A a - -\n"),
            (
                Status::Done,
                "pipeflex report 1\nmodel 2 1 1 0 0\nend\n",
                "",
            ),
        ),
    ];
    for (words, text, want) in rows {
        answers(&rt, rt.alloc(), words, text, want)?;
    }
    Ok(())
}

// An arm of 20 m on an anchor of 1 N/m and 1 N m/rad, which turns with the stiffness of 2^20 / (20^2 + 20.001^2 + 3) = 1,306
// units, between the shifts of 2^10 and of 2^12. At its end stands a stub of 1 mm, whose 12 E I / L^3 is known to a few
// million units, more than the last shift makes up for; the rows before it hold exact or nearly exact numbers.
const SOFT_ARM: &str = "\
pipeflex 1
material st 200000 300 12000 7850
section s st 100000 10000 0 0
section thin st 10000 1000 0 0
node a 0 0 0
node b 20000000 0 0
node c 20001000 0 0
straight p a b s
straight q b c thin
anchor A a 1 1
";

#[test]
fn tells_a_margin(rt: HostRuntime) -> Result<(), Fail> {
    answers(
        &rt,
        rt.alloc(),
        &["analyse"],
        (SOFT_ARM, "case rest 0 0 0 0 0 0\n"),
        (
            Status::Uncertified,
            "pipeflex report 1\nmodel 3 2 1 1 0\ncase rest uncertified margin b uy\nend\n",
            "",
        ),
    )
}

// So many nodes, one to a line, at different places.
fn push_nodes(alloc: Global, text: &mut Vec<u8>, count: u32) -> Result<(), AllocError> {
    for n in 0..count {
        let line = format!(in alloc; "node n{n} 1{n} 0 0\n")?;
        text.extend_from_slice(line.as_bytes())?;
    }
    Ok(())
}

// A straight from the node of that number to each before it.
fn push_straights(alloc: Global, text: &mut Vec<u8>, n: u32) -> Result<(), AllocError> {
    for k in 0..n {
        let line = format!(in alloc; "straight p{n}-{k} n{n} n{k} s\n")?;
        text.extend_from_slice(line.as_bytes())?;
    }
    Ok(())
}

// Behind a head 33 nodes with a straight between any two.
fn complete(alloc: Global, head: &str) -> Result<Vec<u8>, AllocError> {
    let mut text = SECTION.as_bytes().to_vec(alloc)?;
    text.extend_from_slice(head.as_bytes())?;
    push_nodes(alloc, &mut text, 33)?;
    for n in 1..33 {
        push_straights(alloc, &mut text, n)?;
    }
    Ok(text)
}

// The text of a head and such nodes is refused under each word that reads a text.
fn all_refuse<R: Threads + Sync + Abort>(
    rt: &R,
    alloc: Global,
    head: &str,
    message: &str,
) -> Result<(), Fail> {
    for word in ["members", "echo", "analyse"] {
        let line = line_of(alloc, &[word])?;
        let mut source = SafeSource::new(complete(alloc, head)?);
        ends(
            rt,
            alloc,
            &line,
            &mut source,
            (Status::Refused, "", message),
        )?;
    }
    Ok(())
}

#[test]
fn refuses_a_broad_front(rt: HostRuntime) -> Result<(), Fail> {
    all_refuse(&rt, rt.alloc(), "", "refused 16 line 4 front\n")?;
    // The first node of the text has no straights, and is eliminated before.
    all_refuse(
        &rt,
        rt.alloc(),
        "node z 0 0 0\n",
        "refused 16 line 5 front\n",
    )
}

#[test]
fn refuses_texts(rt: HostRuntime) -> Result<(), Fail> {
    for (text, line) in [
        ("", "refused 3 line 1 header\n"),
        ("pipeflex 1\n", "refused 15 line 1 missing\n"),
        ("pipeflex 1\nnode a 0 0 0\r\n", "refused 2 line 2 badbyte\n"),
        (
            "pipeflex 1\nnodes a 0 0 0\n",
            "refused 4 line 2 unknownrecord\n",
        ),
        (
            "pipeflex 1\nmaterial st 200000",
            "refused 5 line 2 wordcount\n",
        ),
        (
            "pipeflex 1\nmaterial st 2x 300 12000 7850\n",
            "refused 6 line 2 badnumber\n",
        ),
        (
            "pipeflex 1\n\nnode a 0 0 10000000001\n",
            "refused 7 line 3 outofrange\n",
        ),
        (
            "pipeflex 1\nnode a 0 0 0\nnode a 1 1 1\n",
            "refused 8 line 3 doubled\n",
        ),
        (
            "pipeflex 1\nsection s st 100000 10000 0 0\n",
            "refused 9 line 2 unknownname\n",
        ),
        (
            "pipeflex 1\nmaterial st 200000 300 12000 7850\nsection s st 100000 50000 0 0\n",
            "refused 13 line 3 walltoothick\n",
        ),
        (
            "pipeflex 1\ncheck c bent\n",
            "refused 9 line 2 unknownname\n",
        ),
    ] {
        let want = (Status::Refused, "", line);
        answers(&rt, rt.alloc(), &["members"], (text, ""), want)?;
        answers(&rt, rt.alloc(), &["echo"], (text, ""), want)?;
    }
    Ok(())
}

// Gives the header, and fails then.
#[derive(Drop)]
struct Breaking {
    is_begun: bool,
}

impl Read for Breaking {
    fn read(&mut self, buf: &mut [u8]) -> io::Result<usize> {
        if self.is_begun {
            return Err(io::Error::from(ErrorKind::Other));
        }
        self.is_begun = true;
        b"pipeflex 1\n".as_slice().read(buf)
    }
}

#[test]
fn ends_at_a_limit_and_at_a_fault_of_the_source(rt: HostRuntime) -> Result<(), Fail> {
    let line = line_of(rt.alloc(), &["members"])?;
    let mut source = SafeSource::new(vec![in rt.alloc(); b' '; 4_194_306]?);
    let toolong = (Status::Refused, "", "refused 1 line 1 toolong\n");
    ends(&rt, rt.alloc(), &line, &mut source, toolong)?;
    // The byte past the limit is read, and none behind it.
    let rest = take_all(rt.alloc(), &mut source, 10)?;
    assert!(rt; rest.len() == 1);

    // A read fault is told, or where that line has no room ends as a write fault.
    for (status, message) in [
        (Status::ReadFault, "read fault\n"),
        (Status::WriteFault, ""),
    ] {
        let mut source = StdSource::new(Breaking { is_begun: false });
        let fault = (status, "", message);
        ends(&rt, rt.alloc(), &line, &mut source, fault)?;
    }
    Ok(())
}

// Takes so many bytes, at most seven at a time, and fails then.
#[derive(Drop)]
struct Short {
    held: Vec<u8>,
    room: usize,
}

impl Write for Short {
    fn write(&mut self, buf: &[u8]) -> io::Result<usize> {
        let count = buf.len().min(self.room).min(7);
        if count == 0 {
            return Err(io::Error::from(ErrorKind::Other));
        }
        self.held.extend_from_slice(&buf[..count])?;
        self.room -= count;
        Ok(count)
    }

    fn flush(&mut self) -> io::Result<()> {
        Ok(())
    }
}

#[test]
fn breaks_off_in_mid_stream(rt: HostRuntime) -> Result<(), Fail> {
    for (words, room, whole) in [
        (["members"], 1, TABLE),
        (["members"], 100, TABLE),
        (["analyse"], 60, CANTILEVER_REPORT),
    ] {
        let line = line_of(rt.alloc(), &words)?;
        let mut text = STRAIGHT.as_bytes().to_vec(rt.alloc())?;
        text.extend_from_slice(CANTILEVER.as_bytes())?;
        let mut source = SafeSource::new(text);
        let mut writer = Short {
            held: Vec::new(rt.alloc()),
            room,
        };
        let mut out = StdSink::new(&mut writer);
        let mut err = SafeSink::new(rt.alloc(), 0)?;
        let status = run(
            &rt,
            rt.alloc(),
            &line,
            &mut source,
            &mut out,
            &mut err,
            &Idle,
        );
        assert!(rt; code(status) == code(Status::WriteFault));
        assert!(rt; writer.held.len() == room);
        assert!(rt; whole.as_bytes().starts_with(writer.held.as_slice()));
    }
    Ok(())
}
