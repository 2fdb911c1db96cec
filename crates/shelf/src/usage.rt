// How the command is used.
use std::io;

pub fn say(rt: &impl Print) -> io::Result<()> {
    print!(rt;
        "shelf table FILE                    is the table good? its shape as a tree\n\
        shelf read TABLE MESSAGE            each entry of the message on a line, and the rest\n\
        shelf bytes TABLE MESSAGE           the same, each entry with its place and its bytes\n\
        shelf read-strict TABLE MESSAGE     the same, up to the first item that isn't in its shortest form\n\
        shelf find TABLE MESSAGE 0 2 1 ...  the one item at a path of positions, 0 to enter an option\n\
        shelf compare TABLE ONE OTHER       where two messages differ: the places of each such item in both\n\
        shelf changes TABLE ONE OTHER       the same in words: each such item with its path, in both messages\n\
        shelf append OLD NEW                does the new table only append to the old one?\n\
        shelf frames [FILE]                 the messages in a recorded stream of frames, of any length; without FILE, from standard input\n\
        shelf frame MESSAGE OUT             writes a message as a frame, to be sent\n\
        shelf export TABLE MESSAGE          the message as a row of CSV\n\
        shelf import TABLE ROW OUT          writes the message of such a row\n\
        shelf write TABLE VALUES POOL OUT   writes the message of a value list\n\
        shelf batch write TABLE MESSAGES STORE_FIELD PRODUCT_FIELD OUT   writes a night's batch of messages that stand end to end\n\
        shelf batch check TABLE BATCH       is the batch good? every message and every row\n\
        shelf batch last TABLE BATCH STORE PRODUCT   the last message of a store and product\n\
        shelf batch compact TABLE BATCH OUT   writes a batch of only the last message of each store and product\n"
    )
}
