// A track as a caller hands it over: two lists of coordinates, which need not be of one length, in range, rising, or on one line. Two lists
// and not one of points: a C host lends them so.
#[derive(Clone, Copy)]
pub struct Track<'a> {
    pub xs: &'a [i16],
    pub ys: &'a [i16],
}
