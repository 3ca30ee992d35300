// What a version of a port's settings is.

#[derive(Clone, Copy)]
pub struct Setting {
    pub version: u32,
    pub pause: u32,
    pub veto: bool,
}
