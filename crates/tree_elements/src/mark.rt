use base_texts::{Items, Name};

/// What a start mark or an empty mark says.
#[derive(Drop)]
pub struct Front {
    pub name: Name,
    pub attributes: Items<(Name, Name)>,
}

/// A mark of a tree file.
#[derive(Drop)]
pub enum Mark {
    /// `<a>`
    Start(Front),
    /// `<a/>`
    Empty(Front),
    /// `</a>`
    End(Name),
    /// `<?a?>` or `<!--a-->`, which are ignored.
    Aside,
}

/// What stands there is no mark in one of the forms.
#[derive(Clone, Copy)]
pub struct NoMark;
