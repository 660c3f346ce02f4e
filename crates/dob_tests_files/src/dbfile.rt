// What the contracts don't say: outside bytes, and each place where a device fails.
mod files;
mod long_tables;
mod std_devices;
