// What the Rust takes from its scalar type: epsilon, absolute value and square root of an f64.
//
// The root is IEEE 754's, from bits and whole numbers alone. A positive finite x is m * 2^52 * 4^k squared
// units of 2^-1074 with an m from 2^52 to 2^54, so that the root's 53 binary digits are those of √(m * 2^52),
// rounded to a whole number. A polynomial guesses that number, and the guess's square says whether it is right.
// Where it is not, one beside it nearly always is; else a whole root is searched for and rounded.
#![tactic(auto)]

ghost use Rattle.std.specs.Prelude.{◌≡◌, ℕ, ◌+◌, ◌*◌, ◌-◌, ◌/◌, ◌%◌, ◌^◌, ◌<◌, ◌≤◌, false, IsTrue, MatchOption};
ghost use Rattle.std.specs.Float.Ieee.Positive.{positive};
ghost use Rattle.std.specs.Float.{binary64};
ghost use Rattle.std.specs.Float.Ieee.{of_bits, units};
ghost use Rattle.scalar.specs.Sqrt.{rounded, sqrt_of};
ghost use Rattle.scalar.specs.Scalar.{abs_of};

use std::marker::Model;

// f64's epsilon, 2^-52.
pub const EPSILON: f64 = f64::EPSILON;

// x with its sign cleared.
#[tactic(auto, using(crate::proofs::Cases::sign_cleared))]
pub fn abs(x: f64) -> f64
    ensures { result ≡ abs_of x }
{
    x.abs()
}

// A positive finite number: the normal number that has these bits, divided by 4^fours. Contracts see it as the radicand
// of its root.
#[derive(Drop)]
struct Normal {
    bits: u64,
    fours: u64,
}

impl Model for Normal {
    ghost Value = { ℕ };

    ghost view = { λ n. (2 ^ 52 + n.bits % 2 ^ 52) * 2 ^ 52 * 2 ^ (n.bits / 2 ^ 52 + 1021 - 2 * n.fours) };

    ghost invariant = { λ n. (2 ^ 52 ≤ n.bits) × (n.bits < 2047 * 2 ^ 52) × (n.fours ≤ 26) };
}

impl Normal {
    // A positive finite x is one, and no other.
    #[tactic(auto, using(crate::proofs::Cases::finite_above, crate::proofs::Cases::infinite_above, crate::proofs::Cases::none_above))]
    fn of(x: f64) -> Option<Normal>
        ensures { MatchOption result (positive x ≡ false) (λ n. sqrt_of x ≡ rounded n) }
    {
        if x > 0.0 {
            let bits = x.to_bits();
            if bits < 0x7ff0_0000_0000_0000 {
                return Some(Normal::scaled(bits));
            }
        }
        None
    }

    // The number with these bits. A subnormal one is multiplied by 4 until it is normal.
    fn scaled(bits: u64) -> Normal
        requires { (0 < bits) × (bits < 2047 * 2 ^ 52) }
        ensures { sqrt_of (of_bits binary64 bits) ≡ rounded result }
    {
        if bits >= 0x10_0000_0000_0000 {
            return Normal { bits, fours: 0 };
        }
        let zeros = bits.leading_zeros() as u64 - 11;
        Normal {
            bits: (bits << zeros) + zeros % 2 * 0x10_0000_0000_0000,
            fours: (zeros + 1) / 2,
        }
    }

    // A guess at the root of the radicand's significand * 2^52: nearly always that root, rounded, and else the whole number
    // beside it. It has no contract, since it is tested. (Nor a proof that nothing wraps: nothing does.)
    fn guess(&self) -> u64 {
        // the exponent's parity and five digits choose the part, and 47 digits are the place in it
        let [c0, c1, c2, c3, c4, c5, c6, c7] = PARTS[(self.bits / 0x8000_0000_0000) as usize % 64];
        let x = self.bits << 17;
        let square = upper(x, x);
        let sixth = minus(c6, c7, x);
        let fourth = plus(minus(c4, c5, x), sixth, square);
        let second = plus(minus(c2, c3, x), fourth, square);
        let root = minus(plus(c0, c1, x), second, square);
        root.wrapping_add(512) / 1024
    }
}

// The upper 64 of a product's 128 binary digits.
fn upper(a: u64, b: u64) -> u64 {
    ((a as u128 * b as u128) >> 64) as u64
}

// a + b * x, for an x in units of 2^-64.
fn plus(a: u64, b: u64, x: u64) -> u64 {
    a.wrapping_add(upper(b, x))
}

// a - b * x, for an x in units of 2^-64.
fn minus(a: u64, b: u64, x: u64) -> u64 {
    a.wrapping_sub(upper(b, x))
}

// Polynomials near to the root, one for each of 32 parts and each parity of the exponent: the coefficients of the powers of
// the place in the part, from the constant to the seventh, in units of 2^-62. The second, fourth and sixth are below 0 and
// stand here without their sign. tools/root_parts makes the rows.
#[rattlefmt::skip]
static PARTS: [[u64; 8]; 64] = [
    [6521908912666391108, 101904826760412087, 796131459059968, 12439554001779, 242959858192, 5314360853, 124098984, 2766184],
    [6623029809754914868, 100348936511437886, 760219215991161, 11518472932906, 218152752397, 4627175212, 104799677, 2271556],
    [6722629831895189192, 98862203410223196, 726927966247969, 10690117121317, 196509390415, 4045535118, 88948419, 1876217],
    [6820775604905358237, 97439651498647834, 695997510701665, 9942821557742, 177550291784, 3550807007, 75853689, 1558175],
    [6917529027641081857, 96076792050570467, 667199944793224, 9266665880662, 160879540361, 3128051914, 64976995, 1300740],
    [7012947728597575060, 94769563899967137, 640334891214032, 8653174189888, 146168421213, 2765216797, 55895998, 1091151],
    [7107085467322508791, 93514282464769776, 615225542529770, 8095072915134, 133142595979, 2452518686, 48277214, 919577],
    [7199992488580229002, 92307596007438770, 591715359020715, 7586094335789, 121571982836, 2181972087, 41855629, 778389],
    [7291715835891894856, 91146447948648633, 569665299677953, 7120816237164, 111262719083, 1947023705, 36419366, 661631],
    [7382299630005649587, 90028044268361537, 548951489440312, 6694530351693, 102050738730, 1742268176, 31798053, 564620],
    [7471785316975218518, 88949825202085898, 529463245249745, 6303133865887, 93796610804, 1563225412, 27853941, 483657],
    [7560211889805164881, 87909440579129794, 511101398715227, 5943039514794, 86381368055, 1406165126, 24475083, 415797],
    [7647616087025832026, 86904728261657156, 493776865122509, 5611100735686, 79703118385, 1267967744, 21570046, 358689],
    [7734032571066740360, 85933695234074871, 477409417966623, 5304549084843, 73674278404, 1146013516, 19063802, 310442],
    [7819494088884915204, 84994500966140364, 461926635685155, 5020941689109, 68219304162, 1038093674, 16894504, 269530],
    [7904031616959224059, 84085442733608751, 447262993263544, 4758116946952, 63272821287, 942338861, 15010955, 234715],
    [7987674492471257551, 83204942629908919, 433359076197158, 4514157041445, 58778077537, 857161222, 13370596, 204986],
    [8070450532247928832, 82351536043346201, 420160898180094, 4287356101927, 54685656896, 781207305, 11937911, 179519],
    [8152386140832988883, 81523861408329879, 407619307041439, 4076193068735, 50952406759, 713319612, 10683148, 157633],
    [8233506408877733394, 80720651067428750, 395689466016626, 3879308488909, 47540539511, 652505055, 9581296, 138769],
    [8313835202890157444, 79940723104713045, 384330399541733, 3695484609723, 44416877398, 597908984, 8611253, 122462],
    [8393395247252481274, 79182974030683779, 373504594484221, 3523628248762, 41552215636, 548793718, 7755157, 108327],
    [8472208199305860846, 78446372215795002, 363177649147081, 3362756009674, 38920783426, 504520729, 6997842, 96041],
    [8550294718205353944, 77729951983685031, 353317963562101, 3211981486102, 36499786367, 464535805, 6326387, 85335],
    [8627674528165471361, 77032808287191704, 343896465567730, 3070504156132, 34269016759, 428356648, 5729755, 75983],
    [8704366476644937585, 76354091900394186, 334886367984106, 2937599718525, 32210520739, 395562486, 5198490, 67793],
    [8780388587956977239, 75693005068594628, 326262952881804, 2812611662217, 30308313138, 365785318, 4724465, 60606],
    [8855758112737160602, 75048797565569155, 318003379515062, 2694943893705, 28548132541, 338702547, 4300683, 54283],
    [8930491573653432006, 74420763113778597, 310086512974023, 2584054274351, 26917230325, 314030727, 3921098, 48710],
    [9004604807701438945, 73808236128700317, 302492771019216, 2479448942398, 25404188481, 291520268, 3580475, 43786],
    [9078113005391857542, 73210588753160139, 295203986907861, 2380677313434, 23998761909, 270950923, 3274274, 39428],
    [9151030747104377421, 72627228151622041, 288203286315923, 2287327668873, 22691741565, 252127940, 2998543, 35562],
    [4611686018427387906, 72057594037927742, 562949953417243, 8796092989595, 171798563283, 3757820597, 87751233, 1955988],
    [4683189290478350066, 70957413492096059, 537556162815671, 8144790319771, 154257290554, 3271906970, 74104562, 1606233],
    [4753617141540068312, 69906134434412646, 514015694368085, 7559054308162, 138953122530, 2860625316, 62896030, 1326686],
    [4823016683180354476, 68900238331147821, 492144559506104, 7030636547608, 125547015322, 2510799713, 53636658, 1101796],
    [4891431684499793330, 67936551173608160, 471781605370579, 6552522283206, 113759013943, 2211866720, 45945674, 919762],
    [4958902894998140983, 67012201283758596, 452785143807792, 6118718148458, 103356681835, 1955303548, 39524439, 771561],
    [5025468328416109080, 66124583268632960, 435030153081973, 5724080952491, 94146032482, 1734192594, 34137145, 650239],
    [5091163513167285764, 65271327091888234, 418405942895780, 5364178747557, 85964373466, 1542887259, 29596399, 550404],
    [5156021714044493574, 64450271425556133, 402814196408947, 5035177448882, 78674623157, 1376753665, 25752381, 467844],
    [5220074129127935612, 63659440599121135, 388167320725700, 4733747808541, 72160769381, 1231969642, 22484619, 399247],
    [5283350065203254477, 62897024585753004, 374387051105131, 4456988699295, 66324219552, 1105367289, 19695711, 341997],
    [5345877094488395668, 62161361563818533, 361403264905467, 4202363541770, 61080851120, 994308896, 17306497, 294013],
    [5407681195047295797, 61450922670991979, 349152969721162, 3967647380124, 56358615492, 896588590, 15252326, 253631],
    [5468786876918921142, 60764298632432442, 337579436846522, 3750882629029, 52095581858, 810353929, 13480143, 219516],
    [5529217295698647534, 60100187996724417, 326631456503661, 3550341916311, 48238332581, 734043076, 11946218, 190587],
    [5588994355064739463, 59457386756007855, 316262695510445, 3364496758868, 44740640997, 666334199, 10614348, 165968],
    [5648138799537240564, 58834779161846246, 306431141467748, 3191991055347, 41562377212, 606104512, 9454439, 144947],
    [5706670298583092218, 58231329577378484, 297098620292575, 3031618573034, 38668598825, 552396983, 8441378, 126939],
    [5764607523034234880, 57646075230342342, 288230376151563, 2882303760328, 36028792337, 504393135, 7554127, 111463],
    [5821968214660344121, 57078119751571995, 279794704664441, 2743085338822, 33616237869, 461390749, 6774999, 98124],
    [5878769249631066502, 56526627400298711, 271762631732094, 2613102227306, 31407475207, 422785497, 6089075, 86594],
    [5935026696511168233, 55990817891614790, 264107631564124, 2491581429080, 29381853449, 388055759, 5483724, 76599],
    [5990755869353443163, 55469961753272618, 256805378487289, 2377827577916, 27521149889, 356750029, 4948221, 67911],
    [6045971376386526237, 54963376148968417, 249833527949783, 2271213889868, 25809246452, 328476418, 4473431, 60341],
    [6100687164736251614, 54470421113716529, 243171522829028, 2171174310462, 24231854135, 302893891, 4051549, 53728],
    [6154916561568491513, 53990496154109572, 236800421728495, 2077196681381, 22776277640, 279704916, 3675887, 47937],
    [6208672311997353296, 53523037172390974, 230702746432671, 1988816779198, 21431213746, 258649279, 3340701, 42855],
    [6261966614064228485, 53067513678510409, 224862346095340, 1905613102156, 20186578110, 239498868, 3041042, 38384],
    [6314811151059663810, 52623426258830530, 219264276078422, 1827202300348, 19033356093, 222053257, 2772635, 34443],
    [6367217121430675237, 52190304274021927, 213894689647597, 1753235160775, 17963473945, 206135958, 2531778, 30961],
    [6419195266490371537, 51767703762019124, 208740740975854, 1683393072146, 16969687286, 191591235, 2315262, 27880],
    [6470755896124103521, 51355205524794471, 203790498114237, 1617384905456, 16045484337, 178281376, 2120290, 25146],
];

// The radicand of a root, significand * 2^52 * 4^exponent squared units, and a guess at the root of
// significand * 2^52, which need not be near.
#[derive(Clone, Copy)]
struct Radicand {
    significand: u64,
    exponent: u64,
    guess: u64,
    ghost digits: { (2 ^ 52 ≤ significand) × (significand ≤ 2 ^ 54 - 2) },
    ghost finite: { exponent < 2022 },
}

impl From<Normal> for Radicand {
    ghost from_gives = { λ n r. r.significand * 2 ^ 52 * 2 ^ (2 * r.exponent) ≡ n };

    #[tactic(auto, using(crate::proofs::Squares::even_power, crate::proofs::Squares::odd_power))]
    fn from(n: Normal) -> Radicand {
        let digits = 0x10_0000_0000_0000 + n.bits % 0x10_0000_0000_0000;
        let exponent = n.bits / 0x10_0000_0000_0000 + 1021 - 2 * n.fours;
        Radicand {
            significand: if exponent % 2 == 0 {
                digits
            } else {
                2 * digits
            },
            exponent: exponent / 2,
            guess: n.guess(),
        }
    }
}

impl Radicand {
    // The root, rounded to the nearest value.
    #[tactic(auto, using(crate::proofs::Patterns::write, crate::proofs::Patterns::no_nan))]
    fn root(self) -> f64
        ensures { result ≡ rounded (self.significand * 2 ^ 52 * 2 ^ (2 * self.exponent)) }
    {
        f64::from_bits(self.exponent * 0x10_0000_0000_0000 + self.digits())
    }

    // The root of significand * 2^52, rounded to the nearest whole number: the guess, where its square says so. (No root lies
    // in the middle between two whole numbers: its square would not be whole.)
    fn digits(self) -> u64
        ensures { (2 ^ 52 ≤ result) × (result < 2 ^ 53) × ((k : ℕ) → rounded (self.significand * 2 ^ 52 * 2 ^ (2 * k)) ≡ units binary64 false result k) }
    {
        let square = self.significand as u128 * 0x10_0000_0000_0000;
        let guess = self.guess as u128;
        match (guess * guess + guess).checked_sub(square) {
            Some(over) if over < 2 * guess => self.guess,
            _ => nearest_beside(square, self.guess),
        }
    }
}

// The whole number nearest to the root of a square, where the guess is not: nearly always one beside the guess.
#[cold]
#[inline(never)]
fn nearest_beside(square: u128, guess: u64) -> u64
    requires { (0 < square) × (square < 2 ^ 106) }
    ensures { (result * result < square + result) × (square ≤ result * result + result) }
{
    let below = guess.saturating_sub(1);
    if is_nearest(square, below) {
        return below;
    }
    let above = guess.saturating_add(1);
    if is_nearest(square, above) {
        return above;
    }
    nearest_root(square)
}

// Whether a whole number is the nearest to the root of a square.
fn is_nearest(square: u128, root: u64) -> bool
    ensures { IsTrue result → (root * root < square + root) × (square ≤ root * root + root) }
{
    let root = root as u128;
    match (root * root + root).checked_sub(square) {
        Some(over) => over < 2 * root,
        None => false,
    }
}

// The whole number nearest to the root of a square, without a guess, which takes longer.
#[cold]
#[inline(never)]
fn nearest_root(square: u128) -> u64
    requires { (0 < square) × (square < 2 ^ 106) }
    ensures { (result * result < square + result) × (square ≤ result * result + result) }
{
    let root = square.isqrt();
    let nearest = if square - root * root <= root {
        root
    } else {
        root + 1
    };
    nearest as u64
}

// The root of any x but a positive finite one: a NaN below zero, and x itself at a zero, +infinity and a NaN.
#[tactic(auto, using(crate::proofs::Cases::special_below, crate::proofs::Cases::special_itself))]
fn special(x: f64) -> f64
    requires { positive x ≡ false }
    ensures { result ≡ sqrt_of x }
{
    if x < 0.0 { f64::NAN } else { x }
}

// The square root of x, rounded to the nearest value, as IEEE 754 has it. It is not std's `f64::sqrt`, which is the
// processor's: the root is to come from bits and whole numbers, so that each step is proved.
pub fn sqrt(x: f64) -> f64
    ensures { result ≡ sqrt_of x }
{
    match Normal::of(x) {
        Some(n) => Radicand::from(n).root(),
        None => special(x),
    }
}
