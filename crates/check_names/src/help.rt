//! What `--help` prints.

pub const HELP: &str = "\
Validates Git names, one on each line of standard input, and prints a line for
each at the end of the input:

    printf 'tag v1.2.3\\ntag a..b\\n' | check_names

A line is a kind, a space and a name. The name is all that follows the first
space, up to the newline.

    tag          prints ok if this is a valid tag name, otherwise error: and why
    partial      the same for a reference name, which may be short, such as main
    ref          the same for a full reference name, as HEAD or refs/heads/main
    branch       the same for the full name of a branch
    submodule    the same for the name of a submodule
    path         the same for the name of an entry in a directory
    symlink      the same for the name of a symbolic link in a directory
    device       prints yes or no: whether Windows takes the name for a device
    sanitize     prints the name if it is a valid partial name, otherwise its
                 repair

For any other kind, and for a line without a space, it prints: unknown kind

    -h, --help   prints this text
    --version    prints the version

The status is 0 whether or not the names are valid. It is 1 if reading the lines
or writing the results fails or memory for them runs out, and 2 if an argument
is wrong or can't be read, or if this text or the version can't be printed.";
