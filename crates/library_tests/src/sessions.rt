//! Sessions over devices.
mod devices;
mod once;
mod prompt;

const SAMPLE: &[u8] =
    b"xkb_keymap { xkb_keycodes { <A>=38; }; xkb_symbols { key <A> {[a]}; }; };\n";
