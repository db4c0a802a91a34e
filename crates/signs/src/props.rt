// The category and the class in the properties of a sign, and which properties a sign may have. A category is the number
// that the rows have: of thirty names four would be used.
ghost use Rattle.std.specs.Prelude.{◌≡◌};
ghost use Rattle.signs.specs.Props.{category_of, class_of, has_category, has_class, is_allowed, is_mark_of};
ghost use Rattle.signs.specs.Reclassing.{with_class};

pub fn category_of(props: u16) -> u8
    ensures { result ≡ category_of props }
{
    (props % 32) as u8
}

pub fn class_of(props: u16) -> u8
    ensures { result ≡ class_of props }
{
    (props >> 8) as u8
}

// Spacing, enclosing or nonspacing.
pub fn is_mark_of(props: u16) -> bool
    ensures { result ≡ is_mark_of props }
{
    (10..=12).contains(&category_of(props))
}

// Categories 30 and 31 mean nothing.
pub fn has_category(props: u16) -> bool
    ensures { result ≡ has_category props }
{
    category_of(props) <= 29
}

// Class 255 means nothing; only marks have a class.
pub fn has_class(props: u16) -> bool
    ensures { result ≡ has_class props }
{
    !is_mark_of(props) || class_of(props) <= 254
}

pub fn is_allowed(props: u16) -> bool
    ensures { result ≡ is_allowed props }
{
    has_category(props) && has_class(props)
}

// Another class in the high byte.
pub fn with_class(props: u16, class: u8) -> u16
    ensures { result ≡ with_class props class }
{
    class as u16 * 256 + props % 256
}
