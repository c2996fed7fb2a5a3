// Linear magmas: the text of one.
pub(crate) mod writing;
