// Tests by subject.
mod logs;
mod maps;
mod pages;
mod pool;
mod spaces;
mod volumes;
