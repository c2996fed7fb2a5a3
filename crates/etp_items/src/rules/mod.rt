// Rule systems: the system that the lines make, and its text.
pub(crate) mod work;
pub(crate) mod writing;
