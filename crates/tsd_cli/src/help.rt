//! What `--help`, `help TOPIC` and `--version` print. The script `tsd` at the top takes these texts out of this file.

/// The version of the program.
pub const VERSION: &str = "tsd 0.2.0\n";

/// What a command line may be. The help has it as a line.
pub const USAGE: &str =
    "usage: tsd [--overwrite] [mirror IMAGE] IMAGE COMMAND | help [TOPIC] | -h | -V";

/// The topics of the help.
pub const TOPICS: &str =
    "fresh, format, run, serve, group, shell, files, copyfs, check, info, load, upgrade, audit, verify, \
    mirror, requests and replies";

/// The text of a topic of the help.
pub fn text_of(topic: &str) -> Option<&'static str> {
    match topic {
        "fresh" => Some(FRESH),
        "format" => Some(FORMAT),
        "run" => Some(RUN),
        "serve" => Some(SERVE),
        "group" => Some(GROUP),
        "shell" => Some(SHELL),
        "files" => Some(FILES),
        "copyfs" => Some(COPYFS),
        "check" => Some(CHECK),
        "info" => Some(INFO),
        "load" => Some(LOAD),
        "upgrade" => Some(UPGRADE),
        "audit" => Some(AUDIT),
        "verify" => Some(VERIFY),
        "mirror" => Some(MIRROR),
        "requests" => Some(REQUESTS),
        "replies" => Some(REPLIES),
        _ => None,
    }
}

/// The commands and the statuses, and where more is told.
pub const HELP: &str =
    "tsd: a type-safe disk. It knows which block points to which, owns free space,
reclaims a block when its last pointer goes, and admits a client to a block by
a capability or along a pointer from a block already granted.

usage: tsd [--overwrite] [mirror IMAGE] IMAGE COMMAND | help [TOPIC] | -h | -V

IMAGE is a file or a block device, or `-` for a disk in memory that is gone when
the program ends. It is open for one process at a time. A file that is named
help is given as ./help, one named mirror as ./mirror. Where it holds something
that is no disk it is lost to a new disk, or to a copy, only after --overwrite.
A word of COMMAND that begins with `@`, as @FILE, stands for the first word in
that file: so a capability stays off the command line, which other users see.

commands

  fresh    makes a disk with one primary block, and answers lines
  format   makes a disk with the capabilities of a seed, and prints them
  run      opens the disk and answers lines
  serve    opens the disk and answers frames
  group    answers frames; those that come together are committed together
  shell    opens the disk and answers lines on a tree of files in it
  files    opens the disk and answers frames on a tree of files in it
  copyfs   copies a tree of files from one primary block to another
  check    tells how full the disk is, or what is wrong with the image
  info     tells the disk's version and size too, a value in each line
  load     carries out requests drawn from a seed, and counts the answers
  upgrade  keeps digests in place of capabilities from then on
  audit    tells which blocks the primary blocks lead to, as a certificate
  verify   reads a certificate and tells what it shows of the disk

mirror IMAGE IMAGE COMMAND does it on two images as one disk, and goes on with
the other where one of them fails: `tsd help mirror`.

exit status, told on standard error by a line and, where more is known of why,
by those after it

  0  done
  2  faulty command line
  3  no image, with the first thing that is wrong with it
  4  device fault: the image can't be opened, read, written or synced
  5  input fault
  6  output fault
  7  input too long
  8  no memory
  9  input ends inside a frame
  10 the capability gives no access to write the root
 11  done, on one image of a mirror: the other one failed

more

  tsd help COMMAND   the words of a command, what it does, and an example
  tsd help requests  the lines of requests
  tsd help replies   the lines of replies, and the refusals
  man tsd            the man page tsd.1, which has all of these
  docs/FORMAT.md     the bytes of an image, the lines, the frames and the faults
                     of an image; `make install` writes it to share/doc/tsd
";

/// The topic `fresh`.
pub const FRESH: &str = "tsd IMAGE fresh BLOCKS SECTORS READCAP WRITECAP PLACE

Makes a disk with one primary block, 0, and with four pointer slots for each
block. Then it answers the lines of standard input. A disk that the file held is
lost; where it has more than its primary blocks, that is asked at a terminal. A
file that holds anything else is refused, unless --overwrite stands before the
image. A missing file is made, for its owner alone.

  BLOCKS    how many blocks, 8 to 1048576
  SECTORS   how many sectors of 512 bytes a block has: 1, 2, 4 or 8
  READCAP   the capability to read block 0: 32 hexadecimal digits
  WRITECAP  the capability to write it: 32 hexadecimal digits
  PLACE     which free block is taken first: low (the lowest), near (the nearest
            to the hint), spread (from the hint on, round the disk) or zone (by
            zones of 256 blocks, from the hint's on)

Other users see the words of a command line. @FILE stands for the first word in
that file.

example

  umask 077
  head -c 16 /dev/urandom | od -An -v -tx1 | tr -d ' \\n' > readcap
  head -c 16 /dev/urandom | od -An -v -tx1 | tr -d ' \\n' > writecap
  printf 'open 1\\nwrite 1 0 %s 6869\\n' $(cat writecap) \\
    | tsd disk.img fresh 8 1 @readcap @writecap near
";

/// The topic `format`.
pub const FORMAT: &str = "tsd IMAGE format BLOCKS SECTORS SLOTS PRIMARIES SEED

Makes a disk whose capabilities come of a seed, and prints them: for each
primary block a line `cap` with its number, its capability to read and that to
write. A disk that the file held is lost; where it has more than its primary
blocks, that is asked at a terminal. A file that holds anything else is refused,
unless --overwrite stands before the image. A missing file is made, for its
owner alone.

  BLOCKS     how many blocks, 8 to 1048576
  SECTORS    how many sectors of 512 bytes a block has: 1, 2, 4 or 8
  SLOTS      for how many pointers there is room, 1 to 4194304
  PRIMARIES  how many primary blocks, 1 to 16 and fewer than BLOCKS
  SEED       64 hexadecimal digits

Other users see the words of a command line. @FILE stands for the first word in
that file.

example

  umask 077
  head -c 32 /dev/urandom | od -An -v -tx1 | tr -d ' \\n' > seed
  tsd pair.img format 64 1 256 2 @seed > caps
  cat caps
";

/// The topic `run`.
pub const RUN: &str = "tsd IMAGE run PLACE

Opens the disk, which no session has open, and answers the lines of standard
input. A reply is sent when the disk holds what it tells.

  PLACE  which free block is taken first: low (the lowest), near (the nearest to
         the hint), spread (from the hint on, round the disk) or zone (by zones
         of 256 blocks, from the hint's on)

The lines are in `tsd help requests` and `tsd help replies`.

The example goes on with the disk and readcap of `tsd help fresh`.

example

  printf 'open 1\\nread 1 0 %s\\n' $(cat readcap) | tsd disk.img run near
";

/// The topic `serve`.
pub const SERVE: &str = "tsd IMAGE serve PLACE

Opens the disk, which no session has open, and answers the frames of standard
input: two bytes of length, the lower first, and a body. A reply is sent when
the disk holds what it tells.

  PLACE  which free block is taken first: low (the lowest), near (the nearest to
         the hint), spread (from the hint on, round the disk) or zone (by zones
         of 256 blocks, from the hint's on)

The bodies are in docs/FORMAT.md.

example

  printf '\\001\\000\\007' | tsd disk.img serve near | od -An -tu1
";

/// The topic `group`.
pub const GROUP: &str = "tsd IMAGE group PLACE

Answers frames, as `serve` does, with group commit: the requests that lie there
together are committed as one batch, and then their replies are sent. Many
clients, or a program that sends ahead, wait for two syncs together in place of
two each. Nothing waits for a clock: a request that comes alone is answered at
once.

A reply is sent when the disk holds what it tells. After a crash the disk is the
one after some of the requests, in order, among them each whose reply was sent;
it may be a whole group further than the last reply, where `serve` is one
request further at most. Over a mirror that holds of each image.

  PLACE  which free block is taken first, as for `serve`

example

  printf '\\001\\000\\007' | tsd disk.img group near | od -An -tu1
";

/// The topic `shell`.
pub const SHELL: &str = "tsd IMAGE shell KIND ROOT CAP PLACE

Opens the disk, mounts the tree of files that hangs under a primary block, and
answers the lines of standard input. Where no such tree is there, nothing is
mounted, and nothing is changed, until `mkfs`. An answer is sent when the disk
holds what it tells; after a crash the tree is the one after a prefix of the
lines that has every line answered.

  KIND   how the tree is kept: inode (directories in directories, files of up to
         as many blocks as an inode names) or chain (one directory, files of any
         size)
  ROOT   the primary block
  CAP    its capability to write: 32 hexadecimal digits
  PLACE  which free block is taken first: low (the lowest), near (the nearest to
         the hint), spread (from the hint on, round the disk) or zone (by zones
         of 256 blocks, from the hint's on)

lines

  mkfs              an empty tree in place of what is there
  put PATH DATA     a file with these bytes, in place of the old one
  append PATH DATA  bytes at the end of a file
  cat PATH          the bytes of a file
  ls PATH           the names in a directory
  mkdir PATH        a new directory (inode)
  rm PATH           the end of a file, or of an empty directory
  cp PATH PATH      a new file with the bytes of another (inode)
  df                how many blocks are free

PATH is `/`, or up to 16 times `/` and a name of 1 to 28 letters, digits, `.`,
`_` or `-`. DATA is hexadecimal, at most 4096 bytes, or `-`. Each line is
answered by one: `ok`, `data DATA`, `names NAME ..`, `free N`, or `no` and

  bad-request              the line asks nothing
  not-this-fs              no tree of this kind is mounted
  not-dir, is-dir          a file where a directory is wanted; or the reverse
  no-entry, exists         nothing of this name is there; something is
  not-empty                the directory has entries
  dir-full, too-big        the directory, or the file, can't have more
  full FREE WANTED         fewer blocks are free than are wanted
  pointers-full HELD MAX   there is no room for the pointers

Other users see the words of a command line. @FILE stands for the first word in
that file.

The example goes on with the disk and writecap of `tsd help fresh`.

example

  printf 'mkfs\\nput /a 6869\\nls /\\ncat /a\\n' \\
    | tsd disk.img shell inode 0 @writecap near
";

/// The topic `files`.
pub const FILES: &str = "tsd IMAGE files KIND ROOT CAP PLACE

Opens the disk and serves the tree of files that hangs under a primary block, as
`shell` does, but takes the asks as frames: two bytes of length, the lower
first, and a body. Each is answered by one line, as `shell` answers it; three
asks more only look.

  KIND   how the tree is kept: inode or chain
  ROOT   the primary block
  CAP    its capability to write: 32 hexadecimal digits
  PLACE  which free block is taken first: low (the lowest), near (the nearest to
         the hint), spread (from the hint on, round the disk) or zone (by zones
         of 256 blocks, from the hint's on)

bodies, each a code in one byte and then its fields, with nothing behind them

  1   mkfs                  9   df
  2   put PATH BYTES        3   append PATH BYTES
  4   cat PATH              5   ls PATH
  6   mkdir PATH (inode)    7   rm PATH
  8   cp PATH PATH (inode)
  16  size PATH             `file N`, where the file has N bytes, or `dir`
  17  read PATH START COUNT `data DATA`: the bytes of the file from START on, at
                            most COUNT and at most 4096
  18  next PATH NAME        the least name in the directory above NAME: `next
                            NAME file N` or `next NAME dir`; else `names -`

PATH is a byte, how many names, and each name as a byte, how many bytes it has,
and these. NAME is one name, or a byte 0: that is below all. BYTES are the rest
of the body, at most 4096. START has eight bytes, COUNT four, the lowest first.
The refusals are those of `shell`. Where the input ends inside a frame, that
isn't carried out, and the status is 9.

Other users see the words of a command line. @FILE stands for the first word in
that file.

The example goes on with the disk and writecap of `tsd help fresh`.

example

  printf '\\001\\000\\011' | tsd disk.img files inode 0 @writecap near
";

/// The topic `copyfs`.
pub const COPYFS: &str = "tsd IMAGE copyfs KIND ROOT CAP KIND ROOT CAP PLACE

Opens the disk and copies the tree of files that hangs under one primary block
to another one, in place of what is there: first stands the source, then the
target, each by its KIND, ROOT and CAP. It prints one line, when the disk holds
what that tells.

  KIND   how the tree is kept: inode or chain
  ROOT   the primary block
  CAP    its capability to write: 32 hexadecimal digits
  PLACE  which free block is taken first: low (the lowest), near (the nearest to
         the hint), spread (from the hint on, round the disk) or zone (by zones
         of 256 blocks, from the hint's on)

lines, the first of these that applies

  no shared B          a path leads from both roots to block B, the least such;
                       nothing is changed
  no not-this-fs       no tree of this kind is at the source; nothing is changed
  no nested PATH       a chain has no directories, and the tree has this one
                       first; the target is as it was
  no REFUSAL           the target has no room for more, as `tsd help shell` has
                       it: full, pointers-full, dir-full or too-big; it has the
                       tree so far
  copied FILES BYTES   the target has the tree: so many files, and bytes in them

The source stays as it is. After a crash the target has what was there before,
or the tree so far: its directories and files in their order, depth first by
ascending names, and of at most one file only the first bytes.

Other users see the words of a command line. @FILE stands for the first word in
that file.

example

  umask 077
  head -c 32 /dev/urandom | od -An -v -tx1 | tr -d ' \\n' > seed
  tsd trees.img format 64 1 256 2 @seed > caps
  awk '{ print $4 > \"write\" $2 }' caps
  printf 'mkfs\\nput /a 6869\\n' | tsd trees.img shell inode 0 @write0 near
  tsd trees.img copyfs inode 0 @write0 chain 1 @write1 near
";

/// The topic `check`.
pub const CHECK: &str = "tsd IMAGE check

Opens the disk and prints `clean LIVE FREE POINTERS`: how many blocks are live
and how many free, and how many pointers are held. Where the image stands for no
disk, it prints the first thing that is wrong with it, and the status is 3. An
image that can't be written is opened read-only, as by `audit` and
`verify`: where it needs a recovery, that is told, and the status is 4.

example

  tsd disk.img check
";

/// The topic `info`.
pub const INFO: &str = "tsd IMAGE info

Tells what the image says of itself, a name and a value in each line:

  version    1 keeps capabilities, 2 digests of them
  sectors    how many sectors of 512 bytes a block has
  blocks     how many blocks
  primaries  how many of them are primary
  slots      for how many pointers there is room
  live       how many blocks are live
  free       how many are free
  pointers   how many pointers are held
  size       how many bytes a whole image has

The image is tested as by `check`, and opened read-only: where it needs a
recovery, that is told, and the status is 4. `tsd IMAGE check` makes one. Over
`mirror` both images are opened to be written. No line counts the blocks that
wait to be reclaimed (doomed): in a disk that was opened there are none.

example

  tsd disk.img info
";

/// The topic `load`.
pub const LOAD: &str = "tsd IMAGE load SEED COUNT PLACE

Opens the disk, carries out requests drawn from a seed, and prints how many were
granted and how many refused, and how many blocks are free and pointers held in
the end.

  SEED   64 hexadecimal digits; the primary blocks need the capabilities that
         `format` gives them of this seed
  COUNT  how many requests, 1 to 200000
  PLACE  which free block is taken first: low (the lowest), near (the nearest to
         the hint), spread (from the hint on, round the disk) or zone (by zones
         of 256 blocks, from the hint's on)

example

  umask 077
  head -c 32 /dev/urandom | od -An -v -tx1 | tr -d ' \\n' > seed
  tsd load.img format 64 1 256 2 @seed > caps
  tsd load.img load @seed 2000 zone
";

/// The topic `upgrade`.
pub const UPGRADE: &str = "tsd IMAGE upgrade

Opens the disk, keeps digests in place of capabilities from then on, and prints
`version 2`. The capabilities stay as they are for those who have them; the
image no longer tells them.

example

  tsd disk.img upgrade
";

/// The topic `audit`.
pub const AUDIT: &str = "tsd IMAGE audit

Opens the disk and prints a line for each block that its primary blocks lead to,
in ascending order: `block B depth D parent A`. D is how many pointers the
shortest path to B has, and A the least block with a pointer to B to which a
path leads with one less. A primary block has depth 0 and, in place of A, `-`.

`tsd IMAGE verify` answers these lines `yes`, also over a copy of the image.

example

  tsd disk.img audit > certificate
  cp disk.img copy.img
  tsd copy.img verify < certificate
";

/// The topic `verify`.
pub const VERIFY: &str = "tsd IMAGE verify

Opens the disk, reads the lines of standard input to its end as a certificate,
as `audit` prints one, and prints the first of these that applies:

  no form I       line I, from 1, isn't of the form, or its block isn't of the
                  disk, or isn't above that of the line before
  no primary B    primary block B isn't listed
  no entry B      block B is listed, and its depth and its parent are wrong: the
                  parent isn't listed with one less, or has no pointer to it
  no open A B     block A is listed, and points to block B, which isn't
  yes N           N blocks are listed, and exactly these can be reached

B, and the pair A B, is the least one. Nothing is searched: each line is held
against the pointers of the disk. Where a line is refused, the rest is read too.

example

  cp disk.img copy.img
  tsd disk.img audit | tsd copy.img verify
";

/// The topic `mirror`.
pub const MIRROR: &str = "tsd mirror IMAGE IMAGE COMMAND

Does what COMMAND says on two images as one disk. It first tests the first image
as `check` does, by reads alone: where it stands for no disk the status is 3,
and the second image isn't touched. Then it copies the first to the second: it
reads both, writes what differs, and syncs; how many sectors that were is told.
Then it writes both, reads the first, and goes on with the other one where a
call on one of them fails. That is told at once, with the image's path and the
system's words.

A missing second image is made, for its owner alone; a missing first one by
`fresh` and `format` alone. A disk that the second image held is lost; where it
holds anything else it is refused, unless --overwrite stands before `mirror`.
Two paths of one file, or of one device, are refused before anything is written.
A block device may not be smaller than the other image, since the copying goes
over all sectors of the larger one: as the first it is a device fault, as the
second a failed copy, status 11.

The status is 11 where all was done and one image failed, and its line says
which: `tsd: side lost, first` or `tsd: side lost, second`. The other image has
all that was answered. To have two again, replace what failed, and give the good
image first in the next run: it is copied to the other one.

Before an image goes on alone it is marked, by a small file beside it of its
name and `.went-on-alone`; for a device, and where that can't be made, in
/var/lib/tsd, or the folder that TSD_STATE names. As the second image, beside a
first one without a mark, it is refused with status 4, and the message says
which to give first. As the first it is copied to the other one, and then its
mark is taken away. Where the mark can't be made nothing more is answered.

Where both fail, the first one in the copying too, the status is 4. A command
over one of the images alone leaves the other as it was, and makes no mark: give
the one that was written last first.

The example goes on with the disk of `tsd help fresh`.

example

  printf 'free\\n' | tsd mirror disk.img second.img run near
";

/// The topic `requests`.
pub const REQUESTS: &str = "request lines, of words that are parted by one space

  open S                  opens session S, 1 to 64
  close S                 closes it and ends what it holds
  read S B CAP            the bytes of block B
  write S B CAP DATA      sets them; zeros follow up to the block's end
  alloc S A CAP HINT N    takes N free blocks (1 to 32), with pointers from A
  contig S A CAP HINT N   the same, in a row
  free                    how many blocks are free
  create S A CAP B        adds a pointer from A to B
  delete S A CAP B        deletes it; blocks that nothing leads to are reclaimed
  setcap S B CAP NEW NEW  gives primary block B new capabilities, read and write
  sweep S CAP             reclaims all that no primary block leads to
  list S A CAP START      targets of A's pointers from START on, at most 64

CAP is a capability or `-`, HINT a block or `-`, DATA hexadecimal or `-`. Each
line is answered by one: `tsd help replies`. docs/FORMAT.md has the details.
";

/// The topic `replies`.
pub const REPLIES: &str = "reply lines, one for each request, sent when the disk holds what it tells

  ok                      it is done
  data DATA               the bytes of a block up to the last that isn't zero
  blocks B ..             new blocks
  free N                  how many blocks are free
  gone N                  how many blocks were reclaimed
  list B ..               targets of pointers, or `-`
  no memory               there is no memory to open a session
  no REFUSAL              the request is refused, and changed nothing

refusals

  bad-request             the line is no request
  bad-session             the session isn't in 1 to 64
  not-open                the session isn't open
  already-open            the session is open already
  bad-count               the count isn't in 1 to 32
  bad-size                more bytes than a block has
  no-such-block           the disk has no block of this number
  free-block              the block is free
  not-primary             only primary blocks have capabilities
  is-primary              nothing points to a primary block
  denied ACCESS NEEDED    the access there is, none, read or write, is too low
  pointer-exists          the pointer is held already
  no-pointer              the pointer isn't held
  full FREE WANTED        fewer blocks are free than were asked for
  run FREE WANTED         enough blocks are free, but not in a row
  pointers-full HELD MAX  there is no room for the new pointers
";
