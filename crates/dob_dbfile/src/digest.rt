// The digest that ends a table's file: of its header and of the records of its values, part after part, before anything of it is written.
ghost use Rattle.std.specs.Prelude.{◌≡◌, ◌≤◌, ℕ, List, [], length, take, vec_capacity, IfOk};
ghost use Rattle.dob_dbfile.specs.Format.{digest_of, front_of};

use crate::header::push_header;
use crate::records::{PIECE_LEN, PIECE_RECORDS, put_records};
use dob_lists::Segments;
use dob_pieces::{Family, Memory};
use dob_value::Table;
use sha2::{Digest, Sha256};
use std::alloc::Global;

/// What makes the digest of a table's file. It takes the codes of the values part after part, in the order of the classes, so that a part can
/// be hashed while the next one isn't known yet.
#[derive(Drop)]
pub struct FileHasher {
    hasher: Sha256,
    // Room for the records that are hashed at a time.
    piece: Vec<u8>,
    ghost room: { 4096 ≤ vec_capacity piece },
}

impl FileHasher {
    ghost use Rattle.dob_pieces.specs.declared.profile.Family.{Family as Known};
    ghost use Rattle.dob_distance.specs.Codes.{values_of_codes};
    ghost use Rattle.dob_value.specs.Follows.{class_table};
    ghost use Rattle.dob_dbfile.specs.Digests.{HasTaken};

    /// For the file of a table of the family, which has that many classes. It has taken no code.
    pub fn begin(alloc: Global, family: Family, count: u64) -> Result<FileHasher, Memory>
        ensures { IfOk result (λ begun. HasTaken begun family count []) }
    {
        let piece = header_piece(alloc, family, count)?;
        let mut hasher = Sha256::new();
        hasher.update(&piece);
        Ok(FileHasher { hasher, piece })
    }

    /// Takes the codes from the first on, when those before it are taken.
    pub fn with(self, codes: &Segments<u16>, first: u64) -> FileHasher
        requires { first ≤ length codes.now }
        ensures { (family : Known) (count : ℕ) → HasTaken self family count (take first codes.now) → HasTaken result family count codes.now }
    {
        let FileHasher {
            mut hasher,
            mut piece,
        } = self;
        let count = codes.len();
        let mut class = first;
        'pieces: while class < count {
            let end = count.min(class + PIECE_RECORDS);
            put_records(&mut piece, codes, class, end);
            hasher.update(&piece);
            class = end;
        }
        FileHasher { hasher, piece }
    }

    /// The digest, when the codes of all classes are taken.
    pub fn end(self) -> [u8; 32]
        ensures { (family : Known) (codes : List ℕ) → HasTaken self family (length codes) codes
            → result ≡ digest_of (class_table family (values_of_codes codes)) }
    {
        let FileHasher { hasher, .. } = self;
        hasher.finalize()
    }
}

/// The digest that ends the table's file.
pub fn digest_of(alloc: Global, table: &Table) -> Result<[u8; 32], Memory>
    ensures { IfOk result (λ digest. digest ≡ digest_of table.now) }
{
    let hasher = FileHasher::begin(alloc, table.family(), table.class_count())?;
    Ok(hasher.with(table.codes(), 0).end())
}

/// The header of the file of a table of the family, which has that many classes, in a piece that has room for the records that are written
/// or hashed at a time.
pub(crate) fn header_piece(alloc: Global, family: Family, count: u64) -> Result<Vec<u8>, Memory>
    ensures header { IfOk result (λ piece. piece.items ≡ front_of family count) }
    ensures room { IfOk result (λ piece. 4096 ≤ vec_capacity piece) }
{
    let mut piece = Vec::with_capacity(alloc, PIECE_LEN)?;
    push_header(&mut piece, family, count)?;
    Ok(piece)
}
