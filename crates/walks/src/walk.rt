// What a search goes by: a script and a table of names that fit together, and where the links of each card stand.
#[derive(Clone, Copy)]
pub struct Walk<'a> {
    pub script: &'a [u16],
    // where the links from each card start, the last link to each card, and of each link the one before to its card
    pub starts: &'a [u16],
    pub first: &'a [u16],
    pub next: &'a [u16],
    pub names: &'a [u8],
    pub shapes: usize,
    // whether some shape names an incoming kind: then links are looked at from both ends
    pub incoming: bool,
}
