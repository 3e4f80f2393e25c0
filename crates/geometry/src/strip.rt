// A strip as a caller hands it over: its mark lists, which need not have one length, nor values in range. Three lists and not one of marks:
// a C host lends them so. The gap is no field: the writer takes a strip and no gap.
#[derive(Clone, Copy)]
pub struct Strip<'a> {
    pub places: &'a [i16],
    pub lengths: &'a [u8],
    pub weights: &'a [u16],
}
