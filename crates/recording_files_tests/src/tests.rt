//! A session in files: how it is cut, what each file gives, and how it ends.

mod endings;
mod files;
mod options;
mod preambles;
mod reports;
mod running;
mod session;
mod template_limits;
