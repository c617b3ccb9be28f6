mod copies;
mod releases;
mod segments;
mod stores;
