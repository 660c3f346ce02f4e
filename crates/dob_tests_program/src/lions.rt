// The file of lions alone. Its records are the values that others found, and the digest behind them is that of another program.

/// The bytes of testdata/lions_alone_2.db: the header, the record of each class, and the digest.
pub(crate) const FILE: &[u8] = b"\
    DOBUTSU2\0\0\0\x02\06\0\0\0\0\0\0\0\
    \x02\0\x01\0\x02\0\x02\0\x03\0\x07\0\0\0\x07\0\x08\0\x06\0\x08\0\x02\0\x02\0\x02\0\0\0\x05\0\x08\0\x06\0\
    \x02\0\x02\0\x01\0\x02\0\x03\0\x02\0\x02\0\x04\0\0\0\x06\0\x04\0\x02\0\x02\0\x02\0\x02\0\x02\0\x04\0\0\0\
    \x01\0\x01\0\x01\0\x02\0\x02\0\x02\0\x02\0\x02\0\x02\0\x02\0\x02\0\x01\0\x01\0\x02\0\x02\0\x02\0\x02\0\x02\0\
    i\x1c*\xf8\xbf\x1a\x12y\xcc\xba*\x14\x15H\xdf~\
    \xd1@.\xf7\x17s\xa6\x1e\x89\x14'2\x1eo\xfb\xff";
