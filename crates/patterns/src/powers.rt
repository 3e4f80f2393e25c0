// The numbers around a power of two, at which the exponent grows: the pattern before it, its own and the one behind it, above 0 and below.
// Above 0 the first has the place before the power, the others have the power. Below 0 the first two have the power, and the third lies
// beyond it. The exponent of an eighth is less by 3, and so its pattern by 0x0180_0000.
use crate::call;
use crate::call::Spot;
use agreed::tally::Tally;

const AROUND_1: [Spot<u32>; 6] = [
    (1201, 0x3f7f_ffff, 0x3dff_ffff, Ok(0)),
    (1202, 0x3f80_0000, 0x3e00_0000, Ok(1)),
    (1203, 0x3f80_0001, 0x3e00_0001, Ok(1)),
    (1204, 0xbf7f_ffff, 0xbdff_ffff, Ok(-1)),
    (1205, 0xbf80_0000, 0xbe00_0000, Ok(-1)),
    (1206, 0xbf80_0001, 0xbe00_0001, Ok(-2)),
];

const AROUND_2: [Spot<u32>; 6] = [
    (1211, 0x3fff_ffff, 0x3e7f_ffff, Ok(1)),
    (1212, 0x4000_0000, 0x3e80_0000, Ok(2)),
    (1213, 0x4000_0001, 0x3e80_0001, Ok(2)),
    (1214, 0xbfff_ffff, 0xbe7f_ffff, Ok(-2)),
    (1215, 0xc000_0000, 0xbe80_0000, Ok(-2)),
    (1216, 0xc000_0001, 0xbe80_0001, Ok(-3)),
];

const AROUND_256: [Spot<u32>; 6] = [
    (1221, 0x437f_ffff, 0x41ff_ffff, Ok(255)),
    (1222, 0x4380_0000, 0x4200_0000, Ok(256)),
    (1223, 0x4380_0001, 0x4200_0001, Ok(256)),
    (1224, 0xc37f_ffff, 0xc1ff_ffff, Ok(-256)),
    (1225, 0xc380_0000, 0xc200_0000, Ok(-256)),
    (1226, 0xc380_0001, 0xc200_0001, Ok(-257)),
];

const AROUND_16384: [Spot<u32>; 6] = [
    (1231, 0x467f_ffff, 0x44ff_ffff, Ok(16383)),
    (1232, 0x4680_0000, 0x4500_0000, Ok(16384)),
    (1233, 0x4680_0001, 0x4500_0001, Ok(16384)),
    (1234, 0xc67f_ffff, 0xc4ff_ffff, Ok(-16384)),
    (1235, 0xc680_0000, 0xc500_0000, Ok(-16384)),
    (1236, 0xc680_0001, 0xc500_0001, Ok(-16385)),
];

// 2^15 is out of range, and what lies around it too.
const AROUND_32768: [Spot<u32>; 6] = [
    (1241, 0x46ff_ffff, 0x457f_ffff, Err(8)),
    (1242, 0x4700_0000, 0x4580_0000, Err(8)),
    (1243, 0x4700_0001, 0x4580_0001, Err(8)),
    (1244, 0xc6ff_ffff, 0xc57f_ffff, Err(8)),
    (1245, 0xc700_0000, 0xc580_0000, Err(8)),
    (1246, 0xc700_0001, 0xc580_0001, Err(8)),
];

pub fn powers(tally: &mut Tally) {
    call::spots_by_pattern(tally, &AROUND_1);
    call::spots_by_pattern(tally, &AROUND_2);
    call::spots_by_pattern(tally, &AROUND_256);
    call::spots_by_pattern(tally, &AROUND_16384);
    call::spots_by_pattern(tally, &AROUND_32768);
}
