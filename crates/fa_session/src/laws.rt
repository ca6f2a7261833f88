//! Laws of the definitions, each the contract of a function with no code.
ghost use Rattle.std.specs.Prelude.{◌≡◌, ◌↔◌, ℕ, List, ◌++◌, map};
ghost use Rattle.std.specs.List.{flat_map, AllByRecursion};
ghost use Rattle.byteorder.specs.Endian.{big_bytes};
ghost use Rattle.fa_nego.specs.Negotiation.{Negotiates, block_size_info};
ghost use Rattle.fa_nego.specs.Numbers.{info_block_size};
ghost use Rattle.fa_cmds.specs.Requests.{max_length};
ghost use Rattle.fa_nego.specs.declared.step.Step.TheVariants.{Go};
ghost use Rattle.fa_cmds.specs.declared.request.Command.{Command};
ghost use Rattle.fa_cmds.specs.declared.request.Command.TheVariants.{Flush, Trim, WriteZeroes};
ghost use Rattle.fa_session.specs.Announced.{Announces, IsAnnounced, MayHave, MayBeDone};
ghost use Rattle.fa_session.specs.Announced.{send_flush, send_fua, send_trim, send_write_zeroes};
ghost use Rattle.fa_session.specs.Exchanges.{Exchange, IsExchange, IsRest, heard_of, asked_of};

/// The bytes of a client have one reading. Behind the handshake they are the same requests with the same
/// data, one after the other, and the same rest behind them; and from the first byte of a connection on
/// they begin with the same handshake, to which the server says the same.
pub fn one_reading()
    ensures requests { (size : ℕ) (es fs : List Exchange) (last rest : List ℕ)
        → AllByRecursion (IsExchange size) es → AllByRecursion (IsExchange size) fs
        → IsRest size last → IsRest size rest
        → flat_map heard_of es ++ last ≡ flat_map heard_of fs ++ rest
        → (map asked_of es ≡ map asked_of fs) × (last ≡ rest) }
    ensures connection { (export : List ℕ) (size : ℕ) (heard heard_again said said_again : List ℕ)
        (es fs : List Exchange) (last rest : List ℕ)
        → Negotiates export size heard said Go → Negotiates export size heard_again said_again Go
        → AllByRecursion (IsExchange size) es → AllByRecursion (IsExchange size) fs
        → IsRest size last → IsRest size rest
        → heard ++ (flat_map heard_of es ++ last) ≡ heard_again ++ (flat_map heard_of fs ++ rest)
        → (heard ≡ heard_again) × (said ≡ said_again) × (map asked_of es ≡ map asked_of fs) × (last ≡ rest) }
{}

/// The transmission flags announce exactly what may be done: SEND_FLUSH a FLUSH, SEND_TRIM a TRIM,
/// SEND_WRITE_ZEROES a WRITE_ZEROES, and SEND_FUA the flag FUA of each of them. A command and its flags may
/// be done where they are announced, and nothing else may be.
pub fn flags_announce_what_may_be_done()
    ensures flush { Announces send_flush ↔ MayBeDone Flush 0 }
    ensures trim { Announces send_trim ↔ MayBeDone Trim 0 }
    ensures write_zeroes { Announces send_write_zeroes ↔ MayBeDone WriteZeroes 0 }
    ensures fua { (command : Command) → IsAnnounced command → (Announces send_fua ↔ MayBeDone command 1) }
    ensures exactly { (command : Command) (flags : ℕ)
        → MayBeDone command flags ↔ (IsAnnounced command × MayHave command flags) }
{}

/// The longest READ or WRITE that the server takes is the maximum that it announces in INFO_BLOCK_SIZE, behind
/// the minimum of 1 byte and the preferred length of 4,096.
pub fn longest_request_is_announced()
    ensures { block_size_info ≡ big_bytes 2 info_block_size ++ big_bytes 4 1 ++ big_bytes 4 4096 ++ big_bytes 4 max_length }
{}
