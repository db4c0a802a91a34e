// The combining classes by which marks are placed. The tables are data, so that one look-up is proved for all.
ghost use Rattle.std.specs.Prelude.{◌≡◌};
ghost use Rattle.signs.specs.Classes.{by_code, by_script, lookup, recategorized};

// The classes of single scripts, each with the class of its place.
const SCRIPT_CLASSES: [(u32, u8); 33] = [
    // Hebrew
    (22, 220),
    (15, 220),
    (16, 220),
    (17, 220),
    (23, 220),
    (18, 220),
    (19, 220),
    (20, 220),
    (21, 220),
    (24, 220),
    (25, 220),
    (13, 214),
    (10, 232),
    (11, 228),
    (14, 228),
    (26, 230),
    // Arabic and Syriac
    (28, 230),
    (29, 230),
    (31, 230),
    (32, 230),
    (27, 230),
    (34, 230),
    (35, 230),
    (36, 230),
    (30, 220),
    (33, 220),
    // Thai
    (3, 222),
    (107, 232),
    // Lao
    (118, 220),
    (122, 230),
    // Tibetan
    (129, 220),
    (132, 230),
    (131, 220),
];

// The marks of class 0 that are placed by their code.
const THAI_AND_LAO_MARKS: [(u32, u8); 18] = [
    // Thai
    (0x0E31, 232),
    (0x0E34, 232),
    (0x0E35, 232),
    (0x0E36, 232),
    (0x0E37, 232),
    (0x0E47, 232),
    (0x0E4C, 232),
    (0x0E4D, 232),
    (0x0E4E, 232),
    // Lao
    (0x0EB1, 230),
    (0x0EB4, 230),
    (0x0EB5, 230),
    (0x0EB6, 230),
    (0x0EB7, 230),
    (0x0EBB, 230),
    (0x0ECC, 230),
    (0x0ECD, 230),
    (0x0EBC, 220),
];

// What the first entry of a number gives, or another class where no entry has it.
fn look_up(table: &[(u32, u8)], wanted: u32, otherwise: u8) -> u8
    ensures { result ≡ lookup wanted otherwise table.now }
{
    table
        .iter()
        .find(|entry| entry.0 == wanted)
        .map_or(otherwise, |entry| entry.1)
}

// Thai and Lao marks are placed by their code, where it says more than their class.
fn class_by_code(code: u32, class: u8) -> u8
    ensures { result ≡ by_code code class }
{
    if code >> 8 != 0x0E {
        return class;
    }
    if class == 0 {
        return look_up(&THAI_AND_LAO_MARKS, code, 0);
    }
    if code == 0x0E3A { 222 } else { class }
}

// A class of a single script becomes the class of a place.
fn class_by_script(class: u8) -> u8
    ensures { result ≡ by_script class }
{
    look_up(&SCRIPT_CLASSES, class as u32, class)
}

// The class by which a mark of a code and a class is placed: a class of 200 or above names a place already.
pub fn recategorize_combining_class(code: u32, class: u8) -> u8
    ensures { result ≡ recategorized code class }
{
    if class >= 200 {
        return class;
    }
    class_by_script(class_by_code(code, class))
}
