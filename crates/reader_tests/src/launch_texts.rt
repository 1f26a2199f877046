//! Documents of launch files.

mod documents;
mod long_text;
mod printing;
mod sizes;
