mod ledgers;
mod many_calls;
mod memory;
mod plain_pages;
mod spaces;
