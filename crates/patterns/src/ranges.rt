// Both ends of the range of places. It is the place that has to be in range, and not the number: one of just below 30,001 dots has the place
// 30,000, and one of just below -30,000 has -30,001.
use crate::call;
use crate::call::Spot;
use agreed::tally::Tally;

// From 2^14, whose pattern is 0x4680_0000, up to 2^15 a dot is 0x0200 steps of the pattern. So 30,000 dots, which are 13,616 more than 2^14,
// have the pattern 0x46ea_6000; 0x46ea_61ff is 30,000.998 and 0xc6ea_6001 is -30,000.002. In millimetres all of them are an eighth, with an
// exponent that is less by 3.
const ENDS: [Spot<u32>; 16] = [
    (1301, 0x46ea_5e00, 0x456a_5e00, Ok(29999)),
    (1302, 0x46ea_5fff, 0x456a_5fff, Ok(29999)),
    (1303, 0x46ea_6000, 0x456a_6000, Ok(30000)),
    (1304, 0x46ea_6001, 0x456a_6001, Ok(30000)),
    (1305, 0x46ea_61ff, 0x456a_61ff, Ok(30000)),
    (1306, 0x46ea_6200, 0x456a_6200, Err(8)),
    (1307, 0x46ea_6201, 0x456a_6201, Err(8)),
    (1308, 0xc6ea_5dff, 0xc56a_5dff, Ok(-29999)),
    (1309, 0xc6ea_5e00, 0xc56a_5e00, Ok(-29999)),
    (1310, 0xc6ea_5e01, 0xc56a_5e01, Ok(-30000)),
    (1311, 0xc6ea_5fff, 0xc56a_5fff, Ok(-30000)),
    (1312, 0xc6ea_6000, 0xc56a_6000, Ok(-30000)),
    (1313, 0xc6ea_6001, 0xc56a_6001, Err(8)),
    (1314, 0xc6ea_61ff, 0xc56a_61ff, Err(8)),
    (1315, 0xc6ea_6200, 0xc56a_6200, Err(8)),
    (1316, 0xc6ea_6201, 0xc56a_6201, Err(8)),
];

// Out of range in dots; the last four are the ends, as numbers of millimetres. 65,541 is 2^16 + 5, and 2^32 + 512 is the least number above
// 2^32: cut off to 16 bits they would be in range.
const BEYOND: [Spot<f32>; 18] = [
    (1321, 30001.0, 3750.125, Err(8)),
    (1322, -30001.0, -3750.125, Err(8)),
    (1323, 32767.0, 4095.875, Err(8)),
    (1324, -32767.0, -4095.875, Err(8)),
    (1325, 32768.0, 4096.0, Err(8)),
    (1326, -32768.0, -4096.0, Err(8)),
    (1327, 32769.0, 4096.125, Err(8)),
    (1328, -32769.0, -4096.125, Err(8)),
    (1329, 65541.0, 8192.625, Err(8)),
    (1330, -65541.0, -8192.625, Err(8)),
    (1331, 2147483648.0, 268435456.0, Err(8)),
    (1332, -2147483648.0, -268435456.0, Err(8)),
    (1333, 4294967808.0, 536870976.0, Err(8)),
    (1334, -4294967808.0, -536870976.0, Err(8)),
    (1335, 240007.984375, 30000.998, Err(8)),
    (1336, -240000.015625, -30000.002, Err(8)),
    (1337, 240008.0, 30001.0, Err(8)),
    (1338, -240008.0, -30001.0, Err(8)),
];

pub fn ranges(tally: &mut Tally) {
    call::spots_by_pattern(tally, &ENDS);
    call::spots(tally, &BEYOND);
}
