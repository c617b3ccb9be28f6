mod files;
mod instructions;
mod reports;
mod scripts;
mod words;
mod workloads;
