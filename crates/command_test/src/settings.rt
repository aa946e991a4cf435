// What reading may depend on besides the bytes.
use reading::setting::Setting;

// In no list, with no name remembered.
pub(crate) fn plain() -> Setting {
    Setting {
        in_list: false,
        has_name: false,
    }
}

// With a name remembered.
pub(crate) fn named() -> Setting {
    Setting {
        in_list: false,
        has_name: true,
    }
}

// In a list.
pub(crate) fn listed() -> Setting {
    Setting {
        in_list: true,
        has_name: false,
    }
}
