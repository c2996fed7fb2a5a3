// Claims: the claims that their lines make, and their text.
pub(crate) mod work;
pub(crate) mod writing;
