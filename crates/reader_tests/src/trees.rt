//! File trees and walks over them.

mod operations;
mod rows;
