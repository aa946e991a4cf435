// What reading depends on besides the bytes of a line.

#[derive(Clone, Copy)]
pub struct Setting {
    // Whether the bytes stand in the list of a global.
    pub in_list: bool,
    // Whether a name is remembered.
    pub has_name: bool,
}
